/// How an argument is given.
pub enum Form {
    /// As a word.
    Word,
    /// As words, at least so many.
    Words(usize),
    /// As `--name VALUE`.
    Named,
    /// As `--name VALUE`, any number of times.
    Repeated,
    /// As `--name N`, a number.
    Number,
    /// As `--name`, without a value.
    Flag,
}
