// Signs.
ghost use Rattle.std.specs.Prelude.{◌≡◌};
ghost use Rattle.vx_source_types.specs.Tokens.{short_sign, long_sign};

use crate::token::Sign;

// The sign of that one byte.
pub(crate) fn short_sign(b: u8) -> Option<Sign>
    ensures { result ≡ short_sign b }
{
    match b {
        b'(' => Some(Sign::OpenParen),
        b')' => Some(Sign::CloseParen),
        b',' => Some(Sign::Comma),
        b'.' => Some(Sign::Dot),
        b'$' => Some(Sign::Dollar),
        b':' => Some(Sign::Colon),
        b'=' => Some(Sign::Equal),
        b'<' => Some(Sign::Less),
        b'>' => Some(Sign::Greater),
        b'+' => Some(Sign::Plus),
        b'*' => Some(Sign::Star),
        b'/' => Some(Sign::Slash),
        b'%' => Some(Sign::Percent),
        b'[' => Some(Sign::OpenBracket),
        b']' => Some(Sign::CloseBracket),
        b'{' => Some(Sign::OpenBrace),
        b'}' => Some(Sign::CloseBrace),
        b'?' => Some(Sign::Question),
        b'~' => Some(Sign::Tilde),
        _ => None,
    }
}

// The sign of these two bytes.
pub(crate) fn long_sign(b: u8, c: u8) -> Option<Sign>
    ensures { result ≡ long_sign b c }
{
    match (b, c) {
        (b':', b':') => Some(Sign::DoubleColon),
        (b'<', b'=') => Some(Sign::LessEqual),
        (b'<', b'>') => Some(Sign::NotEqual),
        (b'>', b'=') => Some(Sign::GreaterEqual),
        (b'=', b'=') => Some(Sign::DoubleEqual),
        (b'!', b'=') => Some(Sign::NotEqual),
        _ => None,
    }
}
