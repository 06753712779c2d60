//! Why HTML is refused, in the words of its grammar: by what is open and begun before the place, and
//! by what is there. The definitions lie in `specs/`, and laws join them to the reasons that the
//! machine of the grammar gives; `refusal` has what is answered.
#![tactic(auto)]

mod laws;
mod refusal;

pub use laws::{first_reason, in_utf8, one_reason};
pub use refusal::{Fault, HtmlRefusal, follow_name, refusal_of};
