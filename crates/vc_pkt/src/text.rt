//! Lines of text.

ghost use Rattle.std.specs.Prelude.{◌≡◌};
ghost use Rattle.vc_pkt.specs.TextLine.{without_lf};

/// The text of a line of text: its data without one final LF, where there is one.
pub fn without_lf(line: &[u8]) -> &[u8]
    ensures { result.now ≡ without_lf line.now }
{
    if !line.is_empty() && line[line.len() - 1] == b'\n' {
        return &line[..line.len() - 1];
    }
    line
}
