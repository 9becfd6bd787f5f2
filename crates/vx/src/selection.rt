// What is selected of records: an expression, or a list of them, each with a name.
use crate::texts::{Text, read_text};
use anyhow::Result;
use clap::ArgMatches;
use std::alloc::{AllocError, Global};
use std::result;
use vx_commands::{Span, Status};
use vx_source_types::{Sign, Token, field_name, first_token};

/// What the words say that is selected, and the record where they say nothing: an expression as it stands; of a list, as in
/// `id, total: cents + 100`, with or without braces, the struct of its items as source text. An item is called by what stands
/// before it, or by the field that it is. Where it is none, that is told, and the status is how the program ends.
pub fn selection_at(
    rt: &HostRuntime,
    matches: &ArgMatches<'_>,
) -> Result<result::Result<Text, Status>> {
    let alloc = rt.alloc();
    let text = read_text(rt, "select", matches.get_str("select").unwrap_or("$"))?;
    let Some(items) = list_in(alloc, text.input().text)? else {
        return Ok(Ok(text));
    };
    let mut source = String::from_str(alloc, "pack(")?;
    let mut before = "";
    for item in &items {
        let Some(name) = item.name else {
            let message = "expected a name before this, as in total: x + y";
            let report = text.input().report(message, item.span, None);
            rt.eprintln(format_args!("{report}"))?;
            return Ok(Err(Status::Wrong));
        };
        source.push_str(format!(in alloc; "{before}{name}: {}", item.text)?.as_str())?;
        before = ", ";
    }
    source.push(')')?;
    Ok(Ok(Text::new(alloc, "select as source text", source)?))
}

// An item of a list.
#[derive(Clone, Copy)]
struct Item<'a> {
    name: Option<&'a str>,
    text: &'a str,
    span: Span,
    // Whether its name stands before it.
    is_named: bool,
}

// The items of the text; none where it is an expression, or where something is wrong with it.
fn list_in(alloc: Global, text: &str) -> result::Result<Option<Vec<Item<'_>>>, AllocError> {
    let first = first_token(alloc, text, 0)?;
    if let Token::Sign(Sign::OpenBrace) = first.token
        && let Some(items) = items_of(alloc, text, first.end, true)?
    {
        return Ok(Some(items));
    }
    let items = items_of(alloc, text, 0, false)?;
    Ok(items.filter(|items| items.len() > 1 || items.iter().any(|item| item.is_named)))
}

// The items from that byte on, up to the end, or to a brace that stands there; none where something is wrong with one.
fn items_of<'a>(
    alloc: Global,
    text: &'a str,
    start: usize,
    is_braced: bool,
) -> result::Result<Option<Vec<Item<'a>>>, AllocError> {
    let mut items = Vec::new(alloc);
    let mut draft = Draft::new();
    let mut depth: usize = 0;
    let mut from = start;
    // (there are no more tokens than bytes)
    for _ in 0..=text.len() {
        let Some(rest) = text.get(from..) else {
            return Ok(None);
        };
        let found = first_token(alloc, rest, 0)?;
        let bytes = Span {
            start: from.saturating_add(found.at),
            end: from.saturating_add(found.end),
        };
        from = bytes.end;
        match (&found.token, depth) {
            (Token::Invalid(_), _) => return Ok(None),
            (Token::Sign(Sign::Comma), 0) => {
                let Some(item) = draft.item(text) else {
                    return Ok(None);
                };
                items.push(item)?;
                draft = Draft::new();
            }
            (Token::End, 0) if !is_braced => return ended(items, draft.item(text)),
            (Token::Sign(Sign::CloseBrace), 0) if is_braced => {
                return if is_all(alloc, text, from)? {
                    ended(items, draft.item(text))
                } else {
                    Ok(None)
                };
            }
            (Token::End, _) => return Ok(None),
            (Token::Sign(Sign::Colon), 0) if draft.is_name() => draft.take_name(),
            (token, _) => {
                draft.see(token, bytes);
                match depth_behind(token, depth) {
                    Some(behind) => depth = behind,
                    None => return Ok(None),
                }
            }
        }
    }
    Ok(None)
}

// The items with the last one, if it is there.
fn ended<'a>(
    items: Vec<Item<'a>>,
    last: Option<Item<'a>>,
) -> result::Result<Option<Vec<Item<'a>>>, AllocError> {
    let mut items = items;
    match last {
        Some(item) => {
            items.push(item)?;
            Ok(Some(items))
        }
        None => Ok(None),
    }
}

// Whether nothing stands from that byte on.
fn is_all(alloc: Global, text: &str, from: usize) -> result::Result<bool, AllocError> {
    let rest = text.get(from..).unwrap_or("");
    Ok(matches!(first_token(alloc, rest, 0)?.token, Token::End))
}

// In how many brackets what follows the token stands, where the token stands in so many; none where it closes one that isn't
// open.
fn depth_behind(token: &Token, depth: usize) -> Option<usize> {
    match token {
        Token::Sign(Sign::OpenParen | Sign::OpenBracket | Sign::OpenBrace) => depth.checked_add(1),
        Token::Sign(Sign::CloseParen | Sign::CloseBracket | Sign::CloseBrace) => {
            depth.checked_sub(1)
        }
        _ => Some(depth),
    }
}

// An item that is read.
#[derive(Clone, Copy)]
struct Draft {
    // The bytes of the name before it.
    name: Option<Span>,
    // Those of the tokens that were seen, and of the last of them if it is a name.
    span: Option<Span>,
    last_name: Option<Span>,
    // Whether these are a field, or the way to one.
    is_path: bool,
}

impl Draft {
    fn new() -> Draft {
        Draft {
            name: None,
            span: None,
            last_name: None,
            is_path: true,
        }
    }

    // Sees a token, which stands in those bytes.
    fn see(&mut self, token: &Token, bytes: Span) {
        let start = self.span.map_or(bytes.start, |span| span.start);
        self.span = Some(Span {
            start,
            end: bytes.end,
        });
        let is_name = field_name(token).is_some();
        self.last_name = if is_name { Some(bytes) } else { None };
        let leads_on = is_name || matches!(token, Token::Sign(Sign::Dot | Sign::Dollar));
        self.is_path = self.is_path && leads_on;
    }

    // Whether a name alone was seen, and none before.
    fn is_name(&self) -> bool {
        self.name.is_none() && self.last_name.is_some() && self.last_name == self.span
    }

    // Takes what was seen as the name of what follows.
    fn take_name(&mut self) {
        *self = Draft {
            name: self.last_name,
            ..Draft::new()
        };
    }

    // The item, if there is one.
    fn item(self, text: &str) -> Option<Item<'_>> {
        let span = self.span?;
        let own = if self.is_path { self.last_name } else { None };
        Some(Item {
            name: self
                .name
                .or(own)
                .and_then(|name| text.get(name.start..name.end)),
            text: text.get(span.start..span.end)?,
            span,
            is_named: self.name.is_some(),
        })
    }
}
