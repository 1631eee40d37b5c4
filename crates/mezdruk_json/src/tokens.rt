//! The tokens of a text or a value, for impls of [`DeserializeFrom`](crate::DeserializeFrom) that are
//! written by hand.
//!
//! ```
//! use mezdruk_json::tokens::Token;
//! use mezdruk_json::{TextTokens, Tokens};
//! let mut tokens = TextTokens::new("[1.50]");
//! assert!(rt; matches!(tokens.next()?, Token::BeginArray));
//! assert!(rt; matches!(tokens.next()?, Token::Raw("1.50")));
//! ```

pub use json_data::{Token, TokenKind, TokenOf, leave_after};
