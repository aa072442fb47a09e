// Transactions: truncate, rename, flags, commit. Each call is total, whatever image, map, table and state it is lent.
#![tactic(auto)]

mod batch;
pub mod commit;
mod files;
pub mod flags;
pub mod rename;
pub mod truncate;
mod walk;
