mod calls;
mod texts;
