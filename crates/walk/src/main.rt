// Plays a morning at the joiner: walk NETWORK PICTURE FIRST COUNT ROWS LAYER RECORD
// loads the network, takes the picture, changes COUNT camera rows from row FIRST on, and replaces the record of LAYER.
#![tactic(auto)]

mod input;
mod morning;
mod print;
mod sizes;

use morning::{Joiner, Plan};
use print::Output;
use sizes::fit;
use std::rt::{Env, Files};

// The files are read, held to the network's sizes, and played. Each that cannot be read is said.
fn begin(rt: &(impl Env + Files), to: &Output, plan: Plan) -> Option<()> {
    let mut file = [0u8; 65537];
    let mut area = [0u8; 65537];
    let mut sums = [0u32; 4096];
    let mut rows = [0u8; 65537];
    let mut record = [0u8; 65537];
    let file = input::file(rt, to, 1, &mut file);
    let picture = input::file(rt, to, 2, &mut area).map(|bytes| bytes.len());
    let rows = input::file(rt, to, 5, &mut rows);
    let record = input::file(rt, to, 7, &mut record);
    let (file, picture, rows, record) = (file?, picture?, rows?, record?);
    let lengths = fit(rt, to, file, picture)?;
    let mut joiner = Joiner {
        to,
        file,
        sums: &mut sums,
        area: &mut area,
        plan,
        lengths,
    };
    if let Err(refused) = joiner.play(rows, record) {
        print::refusal(to, refused);
    }
    Some(())
}

// The plan that words 3, 4 and 6 spell. Each that is no number is said.
fn read_plan(rt: &impl Env, to: &Output) -> Option<Plan> {
    let first = input::read_number(rt, to, 3);
    let count = input::read_number(rt, to, 4);
    let layer = input::read_number(rt, to, 6);
    Some(Plan {
        first: first?,
        count: count?,
        layer: layer?,
    })
}

fn main(rt: HostRuntime) {
    let to = Output {
        out: rt.stdout(),
        err: rt.stderr(),
    };
    if !input::has_word(&rt, 7) || input::has_word(&rt, 8) {
        print::usage(&to);
        return;
    }
    if let Some(plan) = read_plan(&rt, &to) {
        begin(&rt, &to, plan);
    }
}
