// No code: this crate defines what happens to each element, what is kept, how it is numbered and what is written of it.
#![tactic(auto)]
