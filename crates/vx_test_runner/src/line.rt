// One line of a table.
use crate::answers::answer;
use crate::kind::Kind;
use crate::scene::Scene;
use std::alloc::Global;
use vx_test_support::{Judge, Judged, Unread};

impl Judge for Scene {
    type Unread = Unread;

    /// What the line comes to over the scene: a word that sets it, or a kind, its columns and the
    /// answer that is wanted, with bars between them.
    fn judge(&mut self, alloc: Global, line: &str) -> Result<Judged, Unread> {
        let (name, rest) = line.split_once('|').ok_or("no bar behind the kind")?;
        if self.set(alloc, name.trim(), rest.trim())? {
            return Ok(Judged::NoCall);
        }
        let kind = Kind::named(name.trim()).ok_or("no such kind")?;
        let mut columns = Vec::new(alloc);
        for column in rest.splitn(kind.columns().saturating_add(1), '|') {
            columns.push(column.trim())?;
        }
        let wanted = columns.pop().ok_or("no answer")?;
        let got = answer(alloc, kind, self, columns.as_slice())?;
        if got.as_str() == wanted {
            return Ok(Judged::Right);
        }
        Ok(Judged::Differs(got))
    }
}
