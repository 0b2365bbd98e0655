use phrase_reader::Grammar;

/// Expressions, over the phrases of a grammar.
#[derive(Clone, Copy)]
pub struct Exprs<'g, 's, E, T, B> {
    pub grammar: &'g Grammar<'s, E, T, B>,
}
