// What a header declares.
use mesh_read::Span;

#[derive(Clone, Copy)]
pub(crate) enum ScalarType {
    Int8,
    Uint8,
    Int16,
    Uint16,
    Int32,
    Uint32,
    Float32,
    Float64,
}

#[derive(Clone, Copy)]
pub(crate) enum ByteOrder {
    Little,
    Big,
}

#[derive(Clone, Copy)]
pub(crate) enum Encoding {
    Ascii,
    Binary(ByteOrder),
}

#[derive(Clone, Copy)]
pub(crate) enum ElementKind {
    Vertex,
    Face,
    Other,
}

#[derive(Clone, Copy)]
pub(crate) enum Axis {
    X,
    Y,
    Z,
}

// An element with the number of its rows, and where the header names it.
#[derive(Clone, Copy)]
pub(crate) struct Element {
    pub kind: ElementKind,
    pub name: Span,
    pub count: u64,
}

// An element, or a property of the element before it.
#[derive(Clone, Copy)]
pub(crate) enum Declaration {
    Element(Element),
    // A number, which may be a coordinate.
    Scalar(Option<Axis>, ScalarType),
    // Whether these are the corners of a face, and the types of the list's size and of its items.
    List(bool, ScalarType, ScalarType),
}

// What a line of the header says.
#[derive(Clone, Copy)]
pub(crate) enum Entry {
    Passed,
    End,
    Format(Option<Encoding>),
    Declared(Declaration),
}
