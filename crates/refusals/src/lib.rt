// Why a call refuses: nine reasons, each with its number.
#![tactic(auto)]

pub mod refusal;
