// The morning, call after call. It stops at the first refusal, which is its answer.
use crate::print;
use crate::print::{Call, Output, Refused};
use crate::sizes::Lengths;
use clew::{Outcome, State};
use refusals::refusal::Refusal;

// What the morning is played with: the new rows' place, and the layer that is replaced.
#[derive(Clone, Copy)]
pub struct Plan {
    pub first: usize,
    pub count: usize,
    pub layer: usize,
}

// A joiner's network, stored sums and work area, with what is done to them and where that is said.
#[derive(Drop)]
pub struct Joiner<'a> {
    pub to: &'a Output,
    pub file: &'a mut [u8],
    pub sums: &'a mut [u32],
    pub area: &'a mut [u8],
    pub plan: Plan,
    pub lengths: Lengths,
}

// A call's outcome, where it was taken.
fn taken(call: Call, outcome: Outcome) -> Result<Outcome, Refused> {
    match Refusal::try_from(outcome.number) {
        Ok(why) => Err(Refused { call, why }),
        Err(_) => Ok(outcome),
    }
}

// The calls, each over the latest state. All three buffers are lent as `&mut`, since the borrow checker does not cover a `&` beside one.
impl Joiner<'_> {
    fn load(&mut self) -> Outcome {
        clew::load(&mut *self.file, &mut *self.sums, &mut *self.area)
    }

    fn change_rows(&mut self, state: State, rows: &[u8]) -> Outcome {
        let Plan { first, count, .. } = self.plan;
        let (file, sums, area) = (&mut *self.file, &mut *self.sums, &mut *self.area);
        clew::change_rows(file, sums, area, state, first, count, rows)
    }

    fn replace_layer(&mut self, state: State, record: &[u8]) -> Outcome {
        let layer = self.plan.layer;
        let (file, sums, area) = (&mut *self.file, &mut *self.sums, &mut *self.area);
        clew::replace_layer(file, sums, area, state, layer, record)
    }

    fn update(&mut self, state: State) -> Outcome {
        clew::update(&mut *self.file, &mut *self.sums, &mut *self.area, state)
    }

    // A reading is printed where it is taken; how a refusal is said is the caller's.
    fn read(&self, state: State) -> Result<State, Refused> {
        let mut buffer = [0u8; 16384];
        let length = self.lengths.reading.min(buffer.len());
        let out = &mut buffer[..length];
        let outcome = clew::read(self.file, self.sums, self.area, state, out);
        let state = taken(Call::Read, outcome)?.state;
        print::taken(self.to, Call::Read);
        print::bytes(self.to, out);
        Ok(state)
    }
}

// What is done with them.
impl Joiner<'_> {
    // The state after a call, which is said to be taken.
    fn accept(&self, call: Call, outcome: Outcome) -> Result<State, Refused> {
        let state = taken(call, outcome)?.state;
        print::taken(self.to, call);
        Ok(state)
    }

    // After a call: an update, how much that recomputed of what the layers make, and a reading.
    fn work(&mut self, call: Call, outcome: Outcome) -> Result<State, Refused> {
        let state = self.accept(call, outcome)?;
        let update = taken(Call::Update, self.update(state))?;
        print::recomputed(self.to, update.count as usize, self.lengths.made);
        self.read(update.state)
    }

    // Rows change again, and a reading before the update is refused.
    fn too_early(&mut self, state: State, rows: &[u8]) -> Result<(), Refused> {
        let changed = self.change_rows(state, rows);
        let state = self.accept(Call::ChangeRows, changed)?;
        if let Err(refused) = self.read(state) {
            print::answer(self.to, refused);
        }
        Ok(())
    }

    // All of it, in order.
    pub fn play(&mut self, rows: &[u8], record: &[u8]) -> Result<(), Refused> {
        let loaded = self.load();
        let state = self.work(Call::Load, loaded)?;
        let changed = self.change_rows(state, rows);
        let state = self.work(Call::ChangeRows, changed)?;
        let replaced = self.replace_layer(state, record);
        let state = self.work(Call::ReplaceLayer, replaced)?;
        self.too_early(state, rows)
    }
}
