mod books;
mod fails;
