mod endings;
mod runs;
mod words;
