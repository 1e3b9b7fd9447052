// The rules of the device side: the session, the requests and one step, as definitions, and what is proved over them. The code
// stands in the crates above.
#![tactic(auto)]

mod answer;
mod request;
mod session;

pub use answer::{Answer, Outcome};
pub use request::Request;
pub use session::{Pending, Session, StartKind};
