//! What puts the lines of a run's report together, in one form or another.
ghost use Rattle.std.specs.Prelude.{◌≡◌, ◌++◌, OnOk, OnErr, None};
ghost use Rattle.line_text.specs.Buffer.{text_of};
ghost use Rattle.report_lines.specs.declared.line_ref.LineRef.TheVariants as lent;
ghost use Rattle.text_lines.specs.Writer.{writes_for};
ghost use Rattle.json_lines.specs.Writer.{writes_for as json_writes_for};
ghost use Rattle.node_run.specs.Forms.{Style, Puts, in_style, last_line};
ghost use Rattle.node_run.specs.Forms.{Text as AsText, Json as AsJson};

use cy_bits::NoMemory;
use json_lines::JsonWriter;
use line_text::TextBuffer;
use node_core::{LineRef, Numbers};
use report_lines::RxRef;
use text_lines::LineWriter;

/// What puts the lines of a report together as text. Want of memory leaves the text as it was.
pub trait ReportWriter {
    /// The form, and the buses whose names lines have.
    ghost style: { Self → Style };

    /// Appends a text of a line.
    fn push(&mut self, text: &mut TextBuffer, line: &LineRef<'_>) -> Result<(), NoMemory>
        ensures style { style self.new ≡ style self.old }
        ensures ok { OnOk result
            (Puts (style self.old) line.now (text_of text.old) (text_of text.new)) }
        ensures err { OnErr result (text_of text.new ≡ text_of text.old) };

    /// Appends a text of a transfer on a port without a type.
    fn push_raw(&mut self, text: &mut TextBuffer, rx: &RxRef<'_>) -> Result<(), NoMemory>
        requires { rx.now.port_type ≡ None }
        ensures style { style self.new ≡ style self.old }
        ensures ok { let line = lent.Rx rx.now in OnOk result
            (Puts (style self.old) line (text_of text.old) (text_of text.new)) }
        ensures err { OnErr result (text_of text.new ≡ text_of text.old) };

    /// Appends the last line of a report that was read to its end.
    fn push_end(&self, text: &mut TextBuffer, numbers: &Numbers) -> Result<(), NoMemory>
        ensures ok { let last = last_line (style self.now).form numbers.now in
            OnOk result (text_of text.new ≡ text_of text.old ++ last) }
        ensures err { OnErr result (text_of text.new ≡ text_of text.old) };
}

impl ReportWriter for LineWriter {
    ghost style = { λ writer. in_style AsText (writes_for writer) };

    #[inline(always)]
    fn push(&mut self, text: &mut TextBuffer, line: &LineRef<'_>) -> Result<(), NoMemory> {
        LineWriter::push(self, text, line)
    }

    #[inline(always)]
    fn push_raw(&mut self, text: &mut TextBuffer, rx: &RxRef<'_>) -> Result<(), NoMemory> {
        LineWriter::push_raw(self, text, rx)
    }

    fn push_end(&self, text: &mut TextBuffer, numbers: &Numbers) -> Result<(), NoMemory> {
        LineWriter::push_end(text, numbers)
    }
}

impl ReportWriter for JsonWriter {
    ghost style = { λ writer. in_style AsJson (json_writes_for writer) };

    #[inline(always)]
    fn push(&mut self, text: &mut TextBuffer, line: &LineRef<'_>) -> Result<(), NoMemory> {
        JsonWriter::push(self, text, line)
    }

    #[inline(always)]
    fn push_raw(&mut self, text: &mut TextBuffer, rx: &RxRef<'_>) -> Result<(), NoMemory> {
        JsonWriter::push_raw(self, text, rx)
    }

    fn push_end(&self, text: &mut TextBuffer, numbers: &Numbers) -> Result<(), NoMemory> {
        JsonWriter::push_end(text, numbers)
    }
}
