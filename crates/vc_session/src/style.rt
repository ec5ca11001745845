ghost use Rattle.std.specs.Prelude.{◌≡◌};
ghost use Rattle.vc_session.specs.QuietText.{style_by};

// How replies are written: plainly, each behind its line's number, or quietly, only those that refuse a segment.
#[derive(Clone, Copy)]
pub(crate) enum Style {
    Plain,
    Numbered,
    Quiet,
}

// That of a run that is quiet or isn't, by whether its script is of version 2.
pub(crate) fn style_by(quiet: bool, second: bool) -> Style
    ensures { result ≡ style_by quiet second }
{
    if quiet {
        Style::Quiet
    } else if second {
        Style::Numbered
    } else {
        Style::Plain
    }
}
