// Fonts and items of an accepted sheet: numbers by value, pieces as parts of the file.
#![tactic(auto)]

ghost use Rattle.std.specs.Prelude.{◌≡◌, ◌≤◌, ◌<◌, ◌↔◌, IsSome, IfSome};
ghost use Rattle.line.specs.Lent.{lent};
ghost use Rattle.text.specs.Lent.{lent_font, lent_text};
ghost use Rattle.sheet.specs.Fields.{coordinate, font_count, item_count, font_at, item_at, font_number, atlas_bytes, mapping_bytes, text_bytes};
ghost use Rattle.records.specs.Records.{mono_font, font, mono_text_style, text_style, item_of, item, item_font};

use atlas::Atlas;
pub use codes::style_of;
use codes::{alignment, baseline, line_height};
use geometry::{ORIGIN, Point, Size};
use line::{DecorationDimensions, Font, Metrics, MonoFont, MonoTextStyle};
pub use listed::{FontRecord, ItemRecord};
use mapping::Mapping;
use sheet::Sheet;
use sheet::fields::{Record, part};
use text::{Text, TextLayout, TextStyle};

mod codes;
mod listed;

// Font `n` of a sheet, if it has so many.
pub fn font(sheet: Sheet<'_>, n: u32) -> Option<FontRecord<'_>>
    ensures listed { IsSome result ↔ (n < font_count sheet.entry.bytes.now) }
    ensures same_sheet { IfSome result (λ font. font.sheet.bytes.now ≡ sheet.entry.bytes.now) }
    ensures same_number { IfSome result (λ font. font.number ≡ n) }
{
    if sheet.header().font_count() <= n {
        return None;
    }
    Some(FontRecord { sheet, number: n })
}

// Item `n` of a sheet, if it has so many.
pub fn item(sheet: Sheet<'_>, n: u32) -> Option<ItemRecord<'_>>
    ensures listed { IsSome result ↔ (n < item_count sheet.entry.bytes.now) }
    ensures same_sheet { IfSome result (λ item. item.sheet.bytes.now ≡ sheet.entry.bytes.now) }
    ensures same_number { IfSome result (λ item. item.number ≡ n) }
{
    if sheet.header().item_count() <= n {
        return None;
    }
    Some(ItemRecord { sheet, number: n })
}

impl<'a> FontRecord<'a> {
    fn record(self) -> Record<'a>
        ensures same_bytes { result.bytes.now ≡ self.entry.sheet.bytes.now }
        ensures place { result.at ≡ font_at self.entry.number }
    {
        self.sheet.header().font(self.number)
    }

    // The font's numbers, within their limits.
    #[tactic(auto, using(crate::proofs::Readings::font_limits_lem), unfolding(crate::specs::Records::mono_font))]
    pub fn metrics(self) -> Metrics
        ensures { result.font ≡ mono_font self.entry.sheet.bytes.now (font_at self.entry.number) }
    {
        let record = self.record();
        Metrics::new(MonoFont {
            atlas: Atlas {
                width: record.u16_at(16) as u32,
                cell_size: Size {
                    width: u32::from(record.byte(18)),
                    height: u32::from(record.byte(19)),
                },
            },
            replacement_index: record.u16_at(14) as u32,
            character_spacing: u32::from(record.byte(20)),
            baseline: u32::from(record.byte(21)),
            strikethrough: DecorationDimensions {
                offset: u32::from(record.byte(22)),
                height: u32::from(record.byte(23)),
            },
            underline: DecorationDimensions {
                offset: u32::from(record.byte(24)),
                height: u32::from(record.byte(25)),
            },
        })
    }

    // The bytes of the font's atlas.
    pub fn atlas(self) -> &'a [u8]
        ensures { result.now ≡ atlas_bytes self.entry.sheet.bytes.now (font_at self.entry.number) }
    {
        let record = self.record();
        part(record.bytes, record.u32_at(0), record.u32_at(4))
    }

    // The font's mapping.
    pub fn mapping(self) -> Mapping<'a>
        ensures { result.bytes.now ≡ mapping_bytes self.entry.sheet.bytes.now (font_at self.entry.number) }
    {
        let record = self.record();
        Mapping {
            bytes: part(record.bytes, record.u32_at(8), record.u16_at(12)),
        }
    }

    // The font: its numbers, its atlas and its mapping.
    #[tactic(auto, unfolding(crate::specs::Records::font))]
    pub fn font(self) -> Font<'a>
        ensures { lent result ≡ font self.entry.sheet.bytes.now self.entry.number }
    {
        Font::new(self.metrics(), self.atlas(), self.mapping())
    }
}

// A signed number of 2 bytes as a coordinate.
#[tactic(auto, unfolding(sheet::specs::Fields::coordinate))]
fn coordinate(n: u16) -> u32
    ensures { (result ≡ coordinate n) × (result ≤ 4_194_304) }
{
    (ORIGIN as i32 + i32::from(n.cast_signed())) as u32
}

impl<'a> ItemRecord<'a> {
    fn record(self) -> Record<'a>
        ensures same_bytes { result.bytes.now ≡ self.entry.sheet.bytes.now }
        ensures place { result.at ≡ item_at self.entry.sheet.bytes.now self.entry.number }
    {
        self.sheet.header().item(self.number)
    }

    // The font that the item is set in.
    pub fn font_record(self) -> FontRecord<'a>
        ensures same_sheet { result.sheet.bytes.now ≡ self.entry.sheet.bytes.now }
        ensures number_value { result.number ≡ font_number self.entry.sheet.bytes.now (item_at self.entry.sheet.bytes.now self.entry.number) }
    {
        FontRecord {
            sheet: self.sheet,
            number: u32::from(self.record().byte(12)),
        }
    }

    // The bytes of the item's text.
    pub fn text(self) -> &'a [u8]
        ensures { result.now ≡ text_bytes self.entry.sheet.bytes.now (item_at self.entry.sheet.bytes.now self.entry.number) }
    {
        let record = self.record();
        part(record.bytes, record.u32_at(4), record.u16_at(10))
    }

    // The item's x and y.
    #[tactic(auto, unfolding(crate::specs::Records::item_of))]
    pub fn position(self) -> Point
        ensures value { result ≡ (item_of self.entry.sheet.bytes.now (item_at self.entry.sheet.bytes.now self.entry.number)).position }
        ensures x_bound { (result.x ≤ 4_194_304) × (result.y ≤ 4_194_304) }
    {
        let record = self.record();
        Point {
            x: coordinate(record.u16_at(0) as u16),
            y: coordinate(record.u16_at(2) as u16),
        }
    }

    // The item's colours.
    #[tactic(auto, using(crate::proofs::Readings::style_is))]
    pub fn mono_text_style(self) -> MonoTextStyle
        ensures { result ≡ mono_text_style self.entry.sheet.bytes.now (item_at self.entry.sheet.bytes.now self.entry.number) }
    {
        let record = self.record();
        let from = record.at + 13;
        style_of(&record.bytes[from..from + 8])
    }

    // How the item's lines are set.
    #[tactic(auto, unfolding(crate::specs::Records::text_style))]
    pub fn text_style(self) -> TextStyle
        ensures { result ≡ text_style self.entry.sheet.bytes.now (item_at self.entry.sheet.bytes.now self.entry.number) }
    {
        let record = self.record();
        TextStyle {
            alignment: alignment(record.byte(21)),
            baseline: baseline(record.byte(22)),
            line_height: line_height(record.byte(23), record.u16_at(24) as u32),
        }
    }

    // The item as it is measured.
    #[tactic(auto, using(crate::proofs::Readings::item_metrics, crate::proofs::Readings::item_made))]
    pub fn layout(self) -> TextLayout<'a>
        ensures font_value { result.metrics.font ≡ (item_font self.entry.sheet.bytes.now self.entry.number).mono }
        ensures value { lent_text result ≡ item self.entry.sheet.bytes.now self.entry.number }
    {
        TextLayout {
            text: self.text(),
            metrics: self.font_record().metrics(),
            position: self.position(),
            character_style: self.mono_text_style(),
            text_style: self.text_style(),
        }
    }

    // The item as it is drawn.
    #[tactic(auto, using(crate::proofs::Readings::item_font_made))]
    pub fn to_text(self) -> Text<'a>
        ensures font_value { lent_font result ≡ item_font self.entry.sheet.bytes.now self.entry.number }
        ensures value { lent_text result.layout ≡ item self.entry.sheet.bytes.now self.entry.number }
    {
        let font = self.font_record();
        Text {
            layout: self.layout(),
            atlas: font.atlas(),
            mapping: font.mapping(),
        }
    }
}
