//! EPICS database texts: macros are replaced, comments dropped, and the text that is left is cut into tokens.
#![tactic(auto)]

mod cutting;
mod expanding;
mod fault;
mod laws;
mod macros;
mod pieces;
mod token;

pub use cutting::{cut, tokens};
pub use expanding::expand;
pub use fault::TextFault;
pub use laws::{lines_stay, one_cut, one_expansion, plain_text_stays, tokens_are_slices};
pub use pvd_type::{Name, NoMemory};
pub use token::{Token, TokenKind};
