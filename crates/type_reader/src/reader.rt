use phrase_reader::Grammar;

/// Types, over the phrases of a grammar.
#[derive(Clone, Copy)]
pub struct Types<'g, 's, E, T, B> {
    pub grammar: &'g Grammar<'s, E, T, B>,
}
