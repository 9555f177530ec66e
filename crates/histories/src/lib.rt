// No code: what every call keeps, proved over any layers that keep the laws of specs/Model.antt.
#![tactic(auto)]
