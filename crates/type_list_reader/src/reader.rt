use phrase_reader::Grammar;

/// Lists of types in parentheses, results, type arguments and generic parameters, over the phrases of a grammar.
#[derive(Clone, Copy)]
pub struct TypeLists<'g, 's, E, T, B> {
    pub grammar: &'g Grammar<'s, E, T, B>,
}
