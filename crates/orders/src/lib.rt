// Orders to the vault: what a member's vault is told for each commit.
#![tactic(auto)]

mod climb;
mod committer;
mod drop;
mod epoch;
mod follow;
mod give;
mod height;
mod held;
mod leave;
mod make;
mod number;
mod order;
mod reply;
mod roles;
mod sides;
mod slots;
mod step;
mod view;

pub use committer::committer_orders;
pub use order::{Order, Slot, Way};
pub use reply::{orders_for, respond, welcomed_orders};
pub use roles::{founder_orders, newcomer_orders};
