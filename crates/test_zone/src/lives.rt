mod counted;
mod stays;
mod words;
