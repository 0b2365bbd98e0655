use phrase_reader::Grammar;

/// Statements and blocks of them, over the phrases of a grammar.
#[derive(Clone, Copy)]
pub struct Stats<'g, 's, E, T, B> {
    pub grammar: &'g Grammar<'s, E, T, B>,
}
