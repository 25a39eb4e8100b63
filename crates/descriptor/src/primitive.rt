// How vertices become primitives, and how these are drawn.
ghost use Rattle.std.specs.Prelude.{◌≡◌};
ghost use Rattle.descriptor.specs.Primitive.{is_strip, is_triangles};

#[derive(Clone, Copy, PartialEq, Eq, Debug)]
pub enum PrimitiveTopology {
    PointList,
    LineList,
    LineStrip,
    TriangleList,
    TriangleStrip,
}

impl PrimitiveTopology {
    // Whether vertices are shared by primitives that follow each other.
    pub fn is_strip(self) -> bool
        ensures { result ≡ is_strip self }
    {
        matches!(
            self,
            PrimitiveTopology::LineStrip | PrimitiveTopology::TriangleStrip
        )
    }

    pub fn is_triangles(self) -> bool
        ensures { result ≡ is_triangles self }
    {
        matches!(
            self,
            PrimitiveTopology::TriangleList | PrimitiveTopology::TriangleStrip
        )
    }
}

#[derive(Clone, Copy, PartialEq, Eq, Debug)]
pub enum IndexFormat {
    Uint16,
    Uint32,
}

// Which order of a triangle's corners is its front.
#[derive(Clone, Copy, PartialEq, Eq, Debug)]
pub enum FrontFace {
    Ccw,
    Cw,
}

#[derive(Clone, Copy, PartialEq, Eq, Debug)]
pub enum Face {
    Front,
    Back,
}

#[derive(Clone, Copy, PartialEq, Eq, Debug)]
pub enum PolygonMode {
    Fill,
    Line,
    Point,
}

#[derive(Clone, Copy, PartialEq, Eq, Debug)]
pub struct PrimitiveState {
    pub topology: PrimitiveTopology,
    // The indices of a strip, of which the greatest ends it.
    pub strip_index_format: Option<IndexFormat>,
    pub front_face: FrontFace,
    // The face that is not drawn.
    pub cull_mode: Option<Face>,
    pub unclipped_depth: bool,
    pub polygon_mode: PolygonMode,
    // A pixel is drawn if a primitive only touches it.
    pub conservative: bool,
}
