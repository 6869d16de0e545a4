// No code: this crate states the customer's demands, and proves them.
#![tactic(auto)]
