// What calls refuse, as the one error of the facade.
use std::alloc::Global;
use vx_expr::prelude::Error;
use vx_expr::source::parse_type;
use vx_expr::sql::{Dialect, parse_sql_over, sql_plan, to_sql};

// A condition of PostgreSQL as one of SQLite, and the statement that it selects by.
fn moved(alloc: Global, scope: &str, text: &str) -> Result<String, Error> {
    let scope = parse_type(alloc, scope)?;
    let source = parse_sql_over(alloc, text, Dialect::Postgres, &scope)?;
    let bound = source.bind(alloc, &scope)?;
    let condition = to_sql(alloc, &bound, Dialect::Sqlite)?;
    let plan = sql_plan(alloc, &bound, &scope, "t", Dialect::Sqlite)?;
    Ok(format!(in alloc; "{condition} in {}", plan.statement)?)
}

#[test]
fn each_becomes_the_same_error(rt: HostRuntime) -> Result<(), Error> {
    let alloc = rt.alloc();
    let mut page = String::new(alloc);
    for (scope, text) in [
        ("{x=i32}", "x > 5"),
        ("{x i32}", "x > 5"),
        ("{x=i32}", "x > t.y"),
        ("{x=i8}", "x = 300"),
        ("{x=i32}", "y = 5"),
        ("{x=f64}", "x < 0.0"),
        ("i32", "true"),
    ] {
        let line = match moved(alloc, scope, text) {
            Ok(statement) => statement,
            Err(error) => format!(in alloc; "{error}")?,
        };
        page.push_str(line.as_str())?;
        page.push('\n')?;
    }
    assert_eq!(rt;
        page.as_str(),
        "(`x` > 5) in SELECT `x` FROM `t` WHERE (`x` > 5)
at byte 3: expected `=` and the field's type
at byte 4: columns stand without their table; a field of a struct is `(column).field`
at byte 4: 300 is no i8
no such field: y
engines order the floating-point numbers -0.0 and NaN otherwise
the rows are no structs, so that they have no columns
"
    );
    Ok(())
}
