// The adapter that answers from a list of rows.
ghost use Rattle.std.specs.Prelude.{◌≡◌, ◌↔◌, IsTrue, find};
ghost use Rattle.std.specs.Option.{option_copied};
ghost use Rattle.formats.specs.Texture.{same_format};
ghost use Rattle.adapter.specs.Listed.{listed, FirstRowAnswers};

use crate::Adapter;
use formats::format_features::{TextureFormatFeatureFlags, TextureFormatFeatures};
use formats::texture::TextureFormat;

// What can be done with one format.
#[derive(Clone, Copy)]
pub struct FormatRow {
    pub format: TextureFormat,
    pub features: TextureFormatFeatures,
}

impl FormatRow {
    // Whether the row is about the format.
    pub fn is_of(&self, format: TextureFormat) -> bool
        ensures value { result ≡ same_format self.now.format format }
        ensures exactly { IsTrue result ↔ (self.now.format ≡ format) }
    {
        self.format == format
    }
}

// The first row of a format answers; a format without a row is granted nothing.
#[derive(Clone, Copy)]
pub struct ListedAdapter<'a> {
    pub rows: &'a [FormatRow],
}

const NOTHING: TextureFormatFeatures = TextureFormatFeatures {
    renderable: false,
    flags: TextureFormatFeatureFlags {
        blendable: false,
        multisample_x2: false,
        multisample_x4: false,
        multisample_x8: false,
        multisample_x16: false,
    },
};

fn first_row<'a>(rows: &'a [FormatRow], format: TextureFormat) -> Option<&'a FormatRow>
    ensures { option_copied result ≡ find (λ row. same_format row.format format) rows.now }
{
    rows.iter().find(|row| row.is_of(format))
}

impl<'a> Adapter for ListedAdapter<'a> {
    ghost answers = { λ a. listed a.rows.now };

    fn get_texture_format_features(&self, format: TextureFormat) -> TextureFormatFeatures
        ensures value { result ≡ listed self.now.rows.now format }
        ensures law { FirstRowAnswers self.now.rows.now format result }
    {
        first_row(self.rows, format).map_or(NOTHING, |row| row.features)
    }
}
