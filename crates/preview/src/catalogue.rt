// The catalogue: good layouts, and ones with each kind of fault; and the texture formats of a machine that lists its own.
use adapter::listed::FormatRow;
use descriptor::vertex::{VertexAttribute, VertexBufferLayout, VertexState, VertexStepMode};
use formats::format_features::{TextureFormatFeatureFlags, TextureFormatFeatures};
use formats::texture::TextureFormat;
use formats::vertex::VertexFormat;

#[derive(Clone, Copy)]
pub struct Sample<'a> {
    pub name: &'a str,
    pub vertex: VertexState<'a>,
}

const POSITION: VertexAttribute = VertexAttribute {
    format: VertexFormat::Float32x3,
    offset: 0,
    shader_location: 0,
};

const COLOR: VertexAttribute = VertexAttribute {
    format: VertexFormat::Unorm8x4,
    offset: 12,
    shader_location: 1,
};

const SLOT: VertexBufferLayout = VertexBufferLayout {
    array_stride: 16,
    step_mode: VertexStepMode::Vertex,
    first: 0,
    count: 1,
};

const STRIDE_16: Option<VertexBufferLayout> = Some(SLOT);

const STRIDE_0: Option<VertexBufferLayout> = Some(VertexBufferLayout {
    array_stride: 0,
    ..SLOT
});

const LONGEST: Option<VertexBufferLayout> = Some(VertexBufferLayout {
    array_stride: 536_870_912,
    ..SLOT
});

// For the panel: layouts without a fault.
pub const ACCEPTED: [Sample<'static>; 7] = [
    Sample {
        name: "a bead: position and color",
        vertex: VertexState {
            buffers: &[Some(VertexBufferLayout { count: 2, ..SLOT })],
            attributes: &[POSITION, COLOR],
        },
    },
    Sample {
        name: "a bead, set down once for each instance",
        vertex: VertexState {
            buffers: &[
                Some(VertexBufferLayout { count: 2, ..SLOT }),
                None,
                Some(VertexBufferLayout {
                    array_stride: 8,
                    step_mode: VertexStepMode::Instance,
                    first: 2,
                    ..SLOT
                }),
            ],
            attributes: &[
                POSITION,
                COLOR,
                VertexAttribute {
                    format: VertexFormat::Float32x2,
                    offset: 0,
                    shader_location: 2,
                },
            ],
        },
    },
    Sample {
        name: "a position that ends with its element",
        vertex: VertexState {
            buffers: &[STRIDE_16],
            attributes: &[VertexAttribute {
                offset: 4,
                ..POSITION
            }],
        },
    },
    Sample {
        name: "one color for all, as far out as it goes",
        vertex: VertexState {
            buffers: &[STRIDE_0],
            attributes: &[VertexAttribute {
                format: VertexFormat::Float32x4,
                offset: 2_032,
                shader_location: 0,
            }],
        },
    },
    Sample {
        name: "the greatest end is not the last attribute's",
        vertex: VertexState {
            buffers: &[Some(VertexBufferLayout {
                array_stride: 32,
                count: 2,
                ..SLOT
            })],
            attributes: &[
                VertexAttribute {
                    format: VertexFormat::Float32x4,
                    offset: 16,
                    shader_location: 0,
                },
                VertexAttribute {
                    format: VertexFormat::Float32,
                    offset: 0,
                    shader_location: 1,
                },
            ],
        },
    },
    Sample {
        name: "a buffer with no attribute",
        vertex: VertexState {
            buffers: &[Some(VertexBufferLayout {
                array_stride: 4,
                count: 0,
                ..SLOT
            })],
            attributes: &[],
        },
    },
    Sample {
        name: "no buffer at all",
        vertex: VertexState {
            buffers: &[],
            attributes: &[],
        },
    },
];

// For the panel: layouts with each kind of fault.
pub const REFUSED: [Sample<'static>; 12] = [
    Sample {
        name: "a part that leaves the list",
        vertex: VertexState {
            buffers: &[
                STRIDE_16,
                Some(VertexBufferLayout {
                    first: 1,
                    count: 2,
                    ..SLOT
                }),
            ],
            attributes: &[POSITION, COLOR],
        },
    },
    Sample {
        name: "a part of none, past the list",
        vertex: VertexState {
            buffers: &[Some(VertexBufferLayout {
                first: 2,
                count: 0,
                ..SLOT
            })],
            attributes: &[POSITION],
        },
    },
    Sample {
        name: "nine buffers, all empty",
        vertex: VertexState {
            buffers: &[None; 9],
            attributes: &[],
        },
    },
    Sample {
        name: "a stride above the limit",
        vertex: VertexState {
            buffers: &[Some(VertexBufferLayout {
                array_stride: 2_052,
                ..SLOT
            })],
            attributes: &[POSITION],
        },
    },
    Sample {
        name: "a stride that is no multiple of 4",
        vertex: VertexState {
            buffers: &[Some(VertexBufferLayout {
                array_stride: 6,
                ..SLOT
            })],
            attributes: &[POSITION],
        },
    },
    Sample {
        name: "an end beyond the stride",
        vertex: VertexState {
            buffers: &[STRIDE_16],
            attributes: &[VertexAttribute {
                offset: 8,
                ..POSITION
            }],
        },
    },
    Sample {
        name: "an end beyond the stride limit",
        vertex: VertexState {
            buffers: &[STRIDE_0],
            attributes: &[VertexAttribute {
                format: VertexFormat::Float32x4,
                offset: 2_036,
                shader_location: 0,
            }],
        },
    },
    Sample {
        name: "an end beyond 64 bits",
        vertex: VertexState {
            buffers: &[STRIDE_16],
            attributes: &[VertexAttribute {
                format: VertexFormat::Float32,
                offset: 18_446_744_073_709_551_612,
                shader_location: 0,
            }],
        },
    },
    Sample {
        name: "an offset that is not aligned",
        vertex: VertexState {
            buffers: &[STRIDE_16],
            attributes: &[VertexAttribute {
                format: VertexFormat::Float32,
                offset: 2,
                shader_location: 0,
            }],
        },
    },
    Sample {
        name: "a location past the last",
        vertex: VertexState {
            buffers: &[STRIDE_16],
            attributes: &[VertexAttribute {
                format: VertexFormat::Float32,
                offset: 0,
                shader_location: 16,
            }],
        },
    },
    Sample {
        name: "one location in two buffers",
        vertex: VertexState {
            buffers: &[STRIDE_16, STRIDE_16],
            attributes: &[POSITION],
        },
    },
    Sample {
        name: "64-bit components, which the panel does not take",
        vertex: VertexState {
            buffers: &[STRIDE_16],
            attributes: &[VertexAttribute {
                format: VertexFormat::Float64,
                offset: 0,
                shader_location: 0,
            }],
        },
    },
];

// For a machine with longer strides and 64-bit components.
pub const WIDE: [Sample<'static>; 3] = [
    Sample {
        name: "64-bit components, which this machine takes",
        vertex: VertexState {
            buffers: &[STRIDE_16],
            attributes: &[VertexAttribute {
                format: VertexFormat::Float64,
                offset: 0,
                shader_location: 0,
            }],
        },
    },
    Sample {
        name: "an offset just near enough",
        vertex: VertexState {
            buffers: &[LONGEST],
            attributes: &[VertexAttribute {
                format: VertexFormat::Float32,
                offset: 268_435_452,
                shader_location: 0,
            }],
        },
    },
    Sample {
        name: "an offset too far",
        vertex: VertexState {
            buffers: &[LONGEST],
            attributes: &[VertexAttribute {
                format: VertexFormat::Float32,
                offset: 268_435_456,
                shader_location: 0,
            }],
        },
    },
];

// Rgba8Unorm stands twice, and its first row answers; R8Unorm has none.
pub const LISTED_ROWS: [FormatRow; 3] = [
    FormatRow {
        format: TextureFormat::Rgba8Unorm,
        features: TextureFormatFeatures {
            renderable: true,
            flags: TextureFormatFeatureFlags {
                blendable: true,
                multisample_x2: true,
                multisample_x4: true,
                multisample_x8: true,
                multisample_x16: false,
            },
        },
    },
    FormatRow {
        format: TextureFormat::Rgba32Float,
        features: TextureFormatFeatures {
            renderable: true,
            flags: TextureFormatFeatureFlags {
                blendable: true,
                multisample_x2: false,
                multisample_x4: true,
                multisample_x8: false,
                multisample_x16: false,
            },
        },
    },
    FormatRow {
        format: TextureFormat::Rgba8Unorm,
        features: TextureFormatFeatures {
            renderable: false,
            flags: TextureFormatFeatureFlags {
                blendable: false,
                multisample_x2: false,
                multisample_x4: false,
                multisample_x8: false,
                multisample_x16: false,
            },
        },
    },
];

pub const ASKED: [TextureFormat; 4] = [
    TextureFormat::Rgba8Unorm,
    TextureFormat::Rgba32Float,
    TextureFormat::R8Unorm,
    TextureFormat::Depth32FloatStencil8,
];
