// What a walk reads: the node table, and the bounds of the labels.
ghost use Rattle.measures.specs.Magnitudes.{InBounds};

#[derive(Clone, Copy)]
pub struct Lent<'a> {
    pub nodes: &'a [i64],
    pub bounds: &'a [i64],
    pub ghost bounded: { InBounds bounds.now },
}
