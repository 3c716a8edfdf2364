// Styles by the codes that a file stores of them: a match for each, and no TryFrom, since refusal 9 of an unknown code comes from `limits`, which stands
// below `line` and `text` and knows numbers alone.
ghost use Rattle.std.specs.Prelude.{◌≡◌, length};
ghost use Rattle.records.specs.Records.{optional_grey, decoration_color, alignment, baseline, line_height, style_of};

use line::{Baseline, DecorationColor, MonoTextStyle};
use text::{Alignment, LineHeight};

#[tactic(auto, unfolding(crate::specs::Records::optional_grey))]
fn optional_grey(mode: u8, grey: u8) -> Option<u8>
    ensures { result ≡ optional_grey mode grey }
{
    match mode {
        0 => None,
        _ => Some(grey),
    }
}

#[tactic(auto, unfolding(crate::specs::Records::decoration_color))]
fn decoration_color(mode: u8, grey: u8) -> DecorationColor
    ensures { result ≡ decoration_color mode grey }
{
    match mode {
        0 => DecorationColor::None,
        1 => DecorationColor::TextColor,
        _ => DecorationColor::Custom(grey),
    }
}

#[tactic(auto, unfolding(crate::specs::Records::alignment))]
pub fn alignment(code: u8) -> Alignment
    ensures { result ≡ alignment code }
{
    match code {
        0 => Alignment::Left,
        1 => Alignment::Center,
        _ => Alignment::Right,
    }
}

#[tactic(auto, unfolding(crate::specs::Records::baseline))]
pub fn baseline(code: u8) -> Baseline
    ensures { result ≡ baseline code }
{
    match code {
        0 => Baseline::Top,
        1 => Baseline::Bottom,
        2 => Baseline::Middle,
        _ => Baseline::Alphabetic,
    }
}

#[tactic(auto, unfolding(crate::specs::Records::line_height))]
pub fn line_height(kind: u8, value: u32) -> LineHeight
    ensures { result ≡ line_height kind value }
{
    match kind {
        0 => LineHeight::Pixels(value),
        _ => LineHeight::Percent(value),
    }
}

// The colours that the 8 bytes of a style give.
#[tactic(auto, unfolding(crate::specs::Records::style_of))]
pub fn style_of(bytes: &[u8]) -> MonoTextStyle
    requires { length bytes.now ≡ 8 }
    ensures { result ≡ style_of bytes.now }
{
    MonoTextStyle {
        text_color: optional_grey(bytes[0], bytes[1]),
        background_color: optional_grey(bytes[2], bytes[3]),
        underline_color: decoration_color(bytes[4], bytes[5]),
        strikethrough_color: decoration_color(bytes[6], bytes[7]),
    }
}
