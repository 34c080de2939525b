//! Elements of streams: keys, events, bounds, which element may follow which, the line of each, and lists of
//! elements that grow into reserved places.
#![tactic(auto)]

mod bound;
mod element;
mod key;
mod key_order;
mod line_buf;
mod out;
mod validity;

pub use bound::Bound;
pub use element::{Element, Event};
pub use key::{BadKey, Key};
pub use key_order::key_order_is_text_order;
pub use line_buf::{LineBuf, line};
pub use out::Out;
pub use std::alloc::AllocError as Memory;
pub use validity::{NotNext, valid_next};
