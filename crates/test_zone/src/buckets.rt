mod plain_book;
mod reuse;
mod stacks;
