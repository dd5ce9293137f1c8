ghost use Rattle.std.specs.Prelude.{◌≡◌};

use crate::bytes::Bytes;
use std::marker::Model;

/// Bytes that lie in memory.
#[derive(Debug, Drop)]
pub struct Image {
    /// The address of the first of them. Where they are words it is a multiple of 4.
    pub address: u32,

    /// The bytes of its words, of each word the lowest first; or of a segment of an executable, with the zeros after them.
    pub bytes: Bytes,
}

/// The images of a scenario, in the order of its text. Contracts see them as a list.
#[derive(Debug, Drop)]
pub struct Images {
    images: Vec<Image>,
}

impl Model for Images {
    ghost use Rattle.std.specs.Prelude.{List};
    ghost use Rattle.nova_scenario.specs.declared.image.Image.{Image};

    ghost Value = { List Image };

    ghost view = { λ i. i.images.items };
}

impl Images {
    /// The images as a slice.
    pub fn as_slice(&self) -> &[Image]
        ensures { result.now ≡ self.now }
    {
        self.images.as_slice()
    }
}

impl From<Vec<Image>> for Images {
    ghost from_gives = { λ vec images. images ≡ vec.items };

    fn from(images: Vec<Image>) -> Self {
        Images { images }
    }
}
