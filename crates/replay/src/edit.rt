// The edits that a list stores.
ghost use Rattle.std.specs.Prelude.{◌≡◌};
ghost use Rattle.calls.specs.Calls.{edit_reply, edit_sheet, edit_frame, on_sheet_reply, on_sheet_sheet};
ghost use Rattle.replay.specs.Edits.{edit_of};
ghost use Rattle.replay.specs.Spelled.{spelled};

use station::Box;

// An edit of an item: a new text, a new place or a new style. Not `entries::Entry`, which has both too: the programs do not lean on what they compare.
#[derive(Clone, Copy, Debug, PartialEq, Eq)]
pub enum Edit<'a> {
    Text(u32, &'a [u8]),
    Place(u32, i32, i32),
    Style(u32, &'a [u8]),
}

impl<'a> Edit<'a> {
    // The edit of a kind: 0 a new text, 1 a new place, any other a new style.
    pub fn of(kind: u8, item: u32, x: i32, y: i32, bytes: &'a [u8]) -> Edit<'a>
        ensures { spelled result ≡ edit_of kind item x y bytes.now }
    {
        match kind {
            0 => Edit::Text(item, bytes),
            1 => Edit::Place(item, x, y),
            _ => Edit::Style(item, bytes),
        }
    }

    // Makes an edit with a frame.
    pub fn make(self, sheet: &mut [u8], frame: &mut [u8]) -> Box
        ensures value { result ≡ edit_reply sheet.old frame.old (spelled self.entry) }
        ensures sheet_after { sheet.new ≡ edit_sheet sheet.old frame.old (spelled self.entry) }
        ensures frame_after { frame.new ≡ edit_frame sheet.old frame.old (spelled self.entry) }
    {
        match self {
            Edit::Text(item, text) => station::station_set_text(sheet, frame, item, text),
            Edit::Place(item, x, y) => station::station_set_place(sheet, frame, item, x, y),
            Edit::Style(item, style) => station::station_set_style(sheet, frame, item, style),
        }
    }

    // Makes an edit on the sheet alone.
    pub fn make_on_sheet(self, sheet: &mut [u8]) -> Box
        ensures value { result ≡ on_sheet_reply sheet.old (spelled self.entry) }
        ensures sheet_after { sheet.new ≡ on_sheet_sheet sheet.old (spelled self.entry) }
    {
        match self {
            Edit::Text(item, text) => station::station_set_text_on_sheet(sheet, item, text),
            Edit::Place(item, x, y) => station::station_set_place_on_sheet(sheet, item, x, y),
            Edit::Style(item, style) => station::station_set_style_on_sheet(sheet, item, style),
        }
    }
}
