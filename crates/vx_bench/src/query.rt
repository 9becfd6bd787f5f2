// The queries that are timed, and their rows.
use crate::batch::Keys;
use crate::{batch, fields};
use std::alloc::Global;
use vx_dtype::VortexResult;
use vx_value::Column;

/// A query that is timed.
#[derive(Clone, Copy, Debug, PartialEq, Eq)]
pub enum Query {
    /// `(($.x >= 10i32) and ($.x <= 500000i32))`.
    Range,
    /// `CASE WHEN ($.x > 0i32) THEN 10i32 WHEN ($.x > 3i32) THEN 20i32 ELSE 30i32 END`.
    Case,
    /// `$.s like "%b%d"`.
    Like,
    /// `pack(a: $.x, b: $.y, c: $.z).b`.
    Item,
    /// `(($.f7 >= 10i32) and ($.f42 <= 500000i32))`, over a hundred fields.
    Wide,
    /// `CASE WHEN ($.k = 0i32) THEN $.x WHEN ($.k = 1i32) THEN $.y ELSE ($.z + 1i32) END`, over rows
    /// with such keys.
    CaseWithSum(Keys),
    /// The same with `ELSE $.z END`.
    CaseOfFields(Keys),
    /// `zip($.x, $.y, ($.z >= 400000i32))`.
    Zip,
    /// `vortex.fill_null($.x, 5i32)`.
    FillNull,
    /// `($.x + $.y)`.
    Sum,
    /// `vortex.is_null($.x)`.
    IsNull,
    /// `(($.f0 >= -50000i32) and ($.f0 <= 850000i32))`, joined by And with the same of `f1`, `f2` and
    /// `f3`.
    FourRanges,
    /// `pack(a: $.x, b: $.y, c: $.z)`.
    Pack,
    /// `$.x in (..)`, of so many numbers.
    Members(u16),
}

impl Query {
    /// The query of that number, if there is one.
    pub fn of(number: u8) -> Option<Query> {
        match number {
            0 => Some(Query::Range),
            1 => Some(Query::Case),
            2 => Some(Query::Like),
            3 => Some(Query::Item),
            4 => Some(Query::Wide),
            5 => Some(Query::CaseWithSum(Keys::InRuns)),
            6 => Some(Query::CaseWithSum(Keys::Scattered)),
            7 => Some(Query::CaseOfFields(Keys::InRuns)),
            8 => Some(Query::CaseOfFields(Keys::Scattered)),
            9 => Some(Query::Zip),
            10 => Some(Query::FillNull),
            11 => Some(Query::Sum),
            12 => Some(Query::IsNull),
            13 => Some(Query::FourRanges),
            14 => Some(Query::Pack),
            15 => Some(Query::Members(4)),
            16 => Some(Query::Members(100)),
            17 => Some(Query::Members(1_000)),
            _ => None,
        }
    }

    /// The rows that the query is evaluated over.
    pub fn batch(self, alloc: Global, rows: usize) -> VortexResult<Column> {
        match self {
            Query::Range | Query::Case | Query::FillNull | Query::IsNull | Query::Members(_) =>
                named(alloc, &["x"], rows),
            Query::Sum => named(alloc, &["x", "y"], rows),
            Query::Item | Query::Zip | Query::Pack => named(alloc, &["x", "y", "z"], rows),
            Query::FourRanges => numbered(alloc, 4, rows),
            Query::Wide => numbered(alloc, 100, rows),
            Query::CaseWithSum(keys) | Query::CaseOfFields(keys) => {
                batch::keyed(alloc, keys, rows)
            }
            Query::Like => batch::texts(alloc, rows),
        }
    }
}

// So many rows of numbers by these names.
fn named(alloc: Global, texts: &[&str], rows: usize) -> VortexResult<Column> {
    batch::numbers(alloc, fields::names(alloc, texts)?, rows)
}

// So many rows of numbers by the names `f0`, `f1`, ..
fn numbered(alloc: Global, count: usize, rows: usize) -> VortexResult<Column> {
    batch::numbers(alloc, fields::numbered_names(alloc, count)?, rows)
}
