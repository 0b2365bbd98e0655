use phrase_reader::Grammar;

/// Prefixes, table constructors and lists of expressions, over the phrases of a grammar.
#[derive(Clone, Copy)]
pub struct Prefixes<'g, 's, E, T, B> {
    pub grammar: &'g Grammar<'s, E, T, B>,
}
