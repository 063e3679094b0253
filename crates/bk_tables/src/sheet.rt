//! Where rows are written: a page, and the row that is made.

ghost use Rattle.std.specs.Prelude.{◌≡◌, ◌<◌, [], length, IfOk};
ghost use Rattle.bk_report.specs.Pages.{IsReady, Puts, Written, blank, desk};
ghost use Rattle.bk_tables.specs.Kinds.{OfAllPut, WrittenOrWaits};
ghost use Rattle.bk_tables.specs.private.Sheets.{with_front};

use crate::line::Line;
use bk_frames::{Sink, WriteFault};
use bk_report::Page;
use std::alloc::{AllocError, Global};
use std::marker::Model;

/// A page, and a text in front of it that is put with the first text after it, and not before. Contracts see both as one
/// page.
#[derive(Drop)]
pub(crate) struct Leaf {
    front: Vec<u8>,
    page: Page,
}

impl Model for Leaf {
    ghost use Rattle.std.specs.Prelude.{◌≡◌, ◌<◌, length};
    ghost use Rattle.bk_report.specs.Pages.{PageValue, blank};
    ghost use Rattle.bk_tables.specs.private.Sheets.{with_front};

    ghost Value = { PageValue };

    ghost view = { λ l. with_front l.front.items l.page };

    ghost invariant = { λ l. 0 < length l.front.items → l.page ≡ blank };
}

// Puts the text in front of a page, if there is one.
fn put_front<K: Sink>(sink: &mut K, page: &mut Page, front: &mut Vec<u8>)
    requires ready { IsReady (desk page.old (K.state sink.old)) }
    requires fresh { 0 < length front.old.items → page.old ≡ blank }
    ensures none { front.new.items ≡ [] }
    ensures put { Puts (desk (with_front front.old.items page.old) (K.state sink.old))
        (desk page.new (K.state sink.new)) 0 [] }
{
    if front.is_empty() {
        return;
    }
    page.put_text(sink, front.as_slice());
    front.clear();
}

impl Leaf {
    /// A text in front of an empty page. All room that is ever needed is taken here.
    fn new(alloc: Global, front: &[u8]) -> Result<Leaf, AllocError>
        ensures { IfOk result (λ l. l ≡ with_front front.now blank) }
    {
        let front = front.to_vec(alloc)?;
        let page = Page::new(alloc)?;
        Ok(Leaf { front, page })
    }

    /// Puts a text, after the one in front.
    pub fn put_text<K: Sink>(&mut self, sink: &mut K, text: &[u8])
        requires { IsReady (desk self.old (K.state sink.old)) }
        ensures { Puts (desk self.old (K.state sink.old)) (desk self.new (K.state sink.new))
            (length text.now) text.now }
    {
        put_front(sink, &mut self.page, &mut self.front);
        self.page.put_text(sink, text);
    }

    /// Lets all that it holds go out, the text in front too, and says whether the sink ever failed.
    pub fn end<K: Sink>(&mut self, sink: &mut K) -> Result<(), WriteFault>
        requires { IsReady (desk self.old (K.state sink.old)) }
        ensures out { OfAllPut (desk self.old (K.state sink.old))
            (λ start text. Written result start (K.state sink.new) text) }
        ensures more { Puts (desk self.old (K.state sink.old)) (desk self.new (K.state sink.new)) 0
            [] }
    {
        put_front(sink, &mut self.page, &mut self.front);
        self.page.end(sink)
    }

    /// The same where a text was put after the one in front, and nothing where there was none.
    pub fn end_rows<K: Sink>(&mut self, sink: &mut K) -> Result<(), WriteFault>
        requires { IsReady (desk self.old (K.state sink.old)) }
        ensures out { OfAllPut (desk self.old (K.state sink.old))
            (λ start text. WrittenOrWaits result start (K.state sink.new) text) }
        ensures more { Puts (desk self.old (K.state sink.old)) (desk self.new (K.state sink.new)) 0
            [] }
    {
        if self.front.is_empty() {
            return self.end(sink);
        }
        Ok(())
    }
}

/// A page of rows, and room for one.
#[derive(Drop)]
pub(crate) struct Sheet {
    pub page: Leaf,
    pub line: Line,
}

/// An empty page with a text in front. All room that rows ever need is taken here.
pub(crate) fn sheet_after(alloc: Global, front: &[u8]) -> Result<Sheet, AllocError>
    ensures { IfOk result (λ s. s.page ≡ with_front front.now blank) }
{
    let page = Leaf::new(alloc, front)?;
    let line = Line::new(alloc)?;
    Ok(Sheet { page, line })
}
