// The 45 vertex formats, and the size of each from one table.
ghost use Rattle.std.specs.Prelude.{◌≡◌, ◌<◌, ◌≤◌};
ghost use Rattle.formats.specs.Vertex.{size_at, size_of, is64bit};

#[derive(Clone, Copy, PartialEq, Eq, Debug)]
pub enum VertexFormat {
    Uint8,
    Uint8x2,
    Uint8x4,
    Sint8,
    Sint8x2,
    Sint8x4,
    Unorm8,
    Unorm8x2,
    Unorm8x4,
    Snorm8,
    Snorm8x2,
    Snorm8x4,
    Uint16,
    Uint16x2,
    Uint16x4,
    Sint16,
    Sint16x2,
    Sint16x4,
    Unorm16,
    Unorm16x2,
    Unorm16x4,
    Snorm16,
    Snorm16x2,
    Snorm16x4,
    Float16,
    Float16x2,
    Float16x4,
    Float32,
    Float32x2,
    Float32x3,
    Float32x4,
    Uint32,
    Uint32x2,
    Uint32x3,
    Uint32x4,
    Sint32,
    Sint32x2,
    Sint32x3,
    Sint32x4,
    Float64,
    Float64x2,
    Float64x3,
    Float64x4,
    Unorm10_10_10_2,
    Unorm8x4Bgra,
}

// In the order of the formats. A table, and no size beside each case, so that its rule and range are proved over all of it at once.
const SIZES: [u64; 45] = [
    1, 2, 4, 1, 2, 4, 1, 2, 4, 1, 2, 4, 2, 4, 8, 2, 4, 8, 2, 4, 8, 2, 4, 8, 2, 4, 8, 4, 8, 12, 16,
    4, 8, 12, 16, 4, 8, 12, 16, 8, 16, 24, 32, 4, 4,
];

// The table's rule and range, proved once over all of it.
fn size_at(place: usize) -> u64
    requires { place < 45 }
    ensures rule { result ≡ size_at place }
    ensures range { (1 ≤ result) × (result ≤ 32) }
{
    SIZES[place]
}

impl VertexFormat {
    pub const ALL: [VertexFormat; 45] = [
        VertexFormat::Uint8,
        VertexFormat::Uint8x2,
        VertexFormat::Uint8x4,
        VertexFormat::Sint8,
        VertexFormat::Sint8x2,
        VertexFormat::Sint8x4,
        VertexFormat::Unorm8,
        VertexFormat::Unorm8x2,
        VertexFormat::Unorm8x4,
        VertexFormat::Snorm8,
        VertexFormat::Snorm8x2,
        VertexFormat::Snorm8x4,
        VertexFormat::Uint16,
        VertexFormat::Uint16x2,
        VertexFormat::Uint16x4,
        VertexFormat::Sint16,
        VertexFormat::Sint16x2,
        VertexFormat::Sint16x4,
        VertexFormat::Unorm16,
        VertexFormat::Unorm16x2,
        VertexFormat::Unorm16x4,
        VertexFormat::Snorm16,
        VertexFormat::Snorm16x2,
        VertexFormat::Snorm16x4,
        VertexFormat::Float16,
        VertexFormat::Float16x2,
        VertexFormat::Float16x4,
        VertexFormat::Float32,
        VertexFormat::Float32x2,
        VertexFormat::Float32x3,
        VertexFormat::Float32x4,
        VertexFormat::Uint32,
        VertexFormat::Uint32x2,
        VertexFormat::Uint32x3,
        VertexFormat::Uint32x4,
        VertexFormat::Sint32,
        VertexFormat::Sint32x2,
        VertexFormat::Sint32x3,
        VertexFormat::Sint32x4,
        VertexFormat::Float64,
        VertexFormat::Float64x2,
        VertexFormat::Float64x3,
        VertexFormat::Float64x4,
        VertexFormat::Unorm10_10_10_2,
        VertexFormat::Unorm8x4Bgra,
    ];

    // Component width times component count, in bytes.
    pub fn size(self) -> u64
        ensures rule { result ≡ size_of self }
        ensures range { (1 ≤ result) × (result ≤ 32) }
    {
        size_at(self as usize)
    }

    // Whether its components have 64 bits.
    pub fn is_64bit(self) -> bool
        ensures { result ≡ is64bit self }
    {
        matches!(
            self,
            VertexFormat::Float64
                | VertexFormat::Float64x2
                | VertexFormat::Float64x3
                | VertexFormat::Float64x4
        )
    }
}

#[cfg(test)]
mod tests {
    use super::*;

    // No format is left out of the list.
    #[test]
    fn all_in_order(rt: HostRuntime) {
        for (place, format) in VertexFormat::ALL.iter().enumerate() {
            assert_eq!(rt; *format as usize, place);
        }
    }
}
