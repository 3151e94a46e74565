use digits::numeration::Numeration;

pub mod calls;

// The map from an element to the remainder of its step.
#[derive(Drop)]
pub struct Recoding<'s, 'd, S> {
    pub numeration: Numeration<'s, 'd, S>,
}
