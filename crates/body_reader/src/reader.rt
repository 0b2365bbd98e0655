use phrase_reader::Grammar;

/// Function bodies and names with their types, over the phrases of a grammar.
#[derive(Clone, Copy)]
pub struct Bodies<'g, 's, E, T, B> {
    pub grammar: &'g Grammar<'s, E, T, B>,
}
