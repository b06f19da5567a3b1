mod boxing;
mod calling;
mod making;
mod serving;
mod taking;
mod versions;
mod watching;
