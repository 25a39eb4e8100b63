// The limits of a device. They stand in a file of their own, since the definitions that name them cannot be imported here.
ghost use Rattle.std.specs.Prelude.{◌≤◌};

// No record holds a limit above its ceiling.
#[derive(Clone, Copy)]
pub struct Limits {
    pub max_color_attachments: u32,
    pub max_vertex_buffers: u32,
    pub max_vertex_attributes: u32,
    pub max_vertex_buffer_array_stride: u32,
    pub max_color_attachment_bytes_per_sample: u32,
    ghost attachments: { max_color_attachments ≤ 8 },
    ghost buffers: { max_vertex_buffers ≤ 16 },
    ghost attributes: { max_vertex_attributes ≤ 32 },
    ghost stride: { max_vertex_buffer_array_stride ≤ 536870912 },
    ghost bytes: { max_color_attachment_bytes_per_sample ≤ 128 },
}
