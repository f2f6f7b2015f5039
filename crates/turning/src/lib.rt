// The pass over accepted data that writes every number in the other byte order.
#![tactic(auto)]

pub mod sizes;
pub mod texts;
pub mod turn;
