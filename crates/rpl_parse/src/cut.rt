//! Decides where a declaration ends, and whether it begins as a rule or as a function.
ghost use Rattle.std.specs.Prelude.{◌≡◌};
ghost use Rattle.rpl_parse.specs.Declarations.{is_end, begins_rule, begins_function};
ghost use Rattle.rpl_parse.specs.Tokens.{token_seen, toks};

use crate::token::{Mark, Token, TokenAt};

/// Returns whether a token ends a declaration.
pub(crate) fn is_end(_text: &[u8], token: Token) -> bool
    ensures { result ≡ is_end (token_seen _text.now token) }
{
    match token {
        Token::Mark(Mark::EndRule) => true,
        Token::Mark(Mark::EndFunction) => true,
        _ => false,
    }
}

/// Returns whether a declaration begins as a rule.
pub(crate) fn begins_rule(_text: &[u8], tokens: &[TokenAt]) -> bool
    ensures { result ≡ begins_rule (toks _text.now tokens.now) }
{
    match tokens {
        [first, ..] => match first.token {
            Token::Mark(Mark::Rule) => true,
            _ => false,
        },
        [] => false,
    }
}

/// Returns whether a declaration begins as a function.
pub(crate) fn begins_function(_text: &[u8], tokens: &[TokenAt]) -> bool
    ensures { result ≡ begins_function (toks _text.now tokens.now) }
{
    match tokens {
        [first, ..] => match first.token {
            Token::Mark(Mark::Function) => true,
            _ => false,
        },
        [] => false,
    }
}
