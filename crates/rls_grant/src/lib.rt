//! Privileges on tables: who holds them, who may grant them, and how they are granted and revoked.
#![tactic(auto)]

mod columns;
mod granted;
mod granting;
mod grantors;
mod holding;
mod known;
mod lacking;
mod laws;
mod optioning;
mod placing;
mod revoking;
mod tracing;

pub use granting::{grant, own_grants};
pub use grantors::Grantor;
pub use holding::{holds, is_granted};
pub use lacking::{missing, missing_in};
pub use laws::{grantor_means, missing_means};
pub use optioning::{option, options};
pub use placing::put_grants;
pub use revoking::revoke;
