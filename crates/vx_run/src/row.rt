// The rows that the program shows, by their names.
ghost use Rattle.std.specs.Prelude.{◌≡◌, Ok, Err, MatchResult, map, string_bytes};
ghost use Rattle.vx_run.specs.Requests.{row_named, asked};

/// What the program can show.
#[derive(Clone, Copy, Debug)]
pub enum Row {
    /// A null bound and an upper bound over one field.
    Kleene,
    /// A CASE that gives 0 for null.
    Coalesce,
    /// A CASE of two conditions.
    Cases,
    /// The bounds of `Kleene` as one range.
    Fused,
    /// A CASE whose first condition never holds, after the branch rules.
    Branches,
    /// Conditions on two fields, of which a scan reads no more.
    Scan,
}

/// The row that the words name, or the complaint that is made of them.
pub(crate) fn asked(words: &[String]) -> Result<Row, &'static str>
    ensures { let answer = asked (map string_bytes words.now) in
        MatchResult result (λ row. answer ≡ Ok row) (λ complaint. answer ≡ Err complaint.now) }
{
    match words {
        [name] => match row_named(name.as_str()) {
            Some(row) => Ok(row),
            None => Err("unknown row\n"),
        },
        _ => Err("usage: vx_show ROW\n"),
    }
}

// The row of that name.
fn row_named(name: &str) -> Option<Row>
    ensures { result ≡ row_named name.now }
{
    match name {
        "kleene" => Some(Row::Kleene),
        "coalesce" => Some(Row::Coalesce),
        "cases" => Some(Row::Cases),
        "fused" => Some(Row::Fused),
        "branches" => Some(Row::Branches),
        "scan" => Some(Row::Scan),
        _ => None,
    }
}
