// Questions: the name of each is found, and the bytes that it is asked of; the rooms of the questions answer.
#![tactic(auto)]

use orders::Order;
use texts::Text;
use words::Reason;

// What is asked of bytes alone.
#[derive(Clone, Copy)]
enum OfBytes {
    Judge,
    Whole,
    Extended,
    Rest,
    Template,
    Columns,
}

// What is asked of a number and of bytes: of a point by its index, of a step by its place, and of columns by how many numbers are lent.
#[derive(Clone, Copy)]
enum OfNumberAndBytes {
    Point,
    Step,
    LookUp,
    ColumnsIn,
}

#[derive(Clone, Copy)]
enum Question {
    OfBytes(OfBytes),
    OfNumberAndBytes(OfNumberAndBytes),
    Write(Order),
    WriteTemplate,
    Thousandths,
    Place,
    Body,
    BodyPoint,
    WriteBody,
    Turn,
    Double,
    DoublePlace,
}

// The question of a name, where there is such a question.
fn question_of(name: &[u8]) -> Option<Question> {
    let question = match name {
        b"judge" => Question::OfBytes(OfBytes::Judge),
        b"whole" => Question::OfBytes(OfBytes::Whole),
        b"extended" => Question::OfBytes(OfBytes::Extended),
        b"rest" => Question::OfBytes(OfBytes::Rest),
        b"template" => Question::OfBytes(OfBytes::Template),
        b"columns" => Question::OfBytes(OfBytes::Columns),
        b"point" => Question::OfNumberAndBytes(OfNumberAndBytes::Point),
        b"step" => Question::OfNumberAndBytes(OfNumberAndBytes::Step),
        b"look-up" => Question::OfNumberAndBytes(OfNumberAndBytes::LookUp),
        b"columns-in" => Question::OfNumberAndBytes(OfNumberAndBytes::ColumnsIn),
        b"write" => Question::Write(Order::Point),
        b"write-columns" => Question::Write(Order::Column),
        b"write-template" => Question::WriteTemplate,
        b"thousandths" => Question::Thousandths,
        b"place" => Question::Place,
        b"body" => Question::Body,
        b"body-point" => Question::BodyPoint,
        b"write-body" => Question::WriteBody,
        b"turn" => Question::Turn,
        b"double" => Question::Double,
        b"double-place" => Question::DoublePlace,
        _ => return None,
    };
    Some(question)
}

// The answer to a line. Its first word names the question.
pub fn answer(text: &mut Text, line: &[u8]) {
    let span = words::next(line, b' ', 0);
    match question_of(words::part(line, span.from, span.to)) {
        Some(question) => ask(text, question, line, span.to),
        None => answers::cannot(text, Some(Reason::NoSuchQuestion)),
    }
}

// A question is asked of what stands behind its name.
fn ask(text: &mut Text, question: Question, line: &[u8], at: usize) {
    match question {
        Question::OfBytes(asked) => of_bytes(text, asked, line, at),
        Question::OfNumberAndBytes(asked) => of_number_and_bytes(text, asked, line, at),
        Question::Write(order) => writing_questions::write(text, line, at, order),
        Question::WriteTemplate => writing_questions::write_template(text, line, at),
        Question::Thousandths => reading_questions::thousandths(text, line, at),
        Question::Place => reading_questions::place(text, line, at),
        Question::Body => body_questions::body(text, line, at),
        Question::BodyPoint => body_questions::point(text, line, at),
        Question::WriteBody => body_questions::write(text, line, at),
        Question::Turn => body_questions::turn(text, line, at),
        Question::Double => reading_questions::double(text, line, at),
        Question::DoublePlace => reading_questions::double_place(text, line, at),
    }
}

// The bytes that the rest of a line says. A line says at most half as many bytes as it has.
fn of_bytes(text: &mut Text, asked: OfBytes, line: &[u8], at: usize) {
    let mut space = [0; 131072];
    let Some(count) = hexadecimal::bytes_in(words::part(line, at, line.len()), &mut space) else {
        return answers::cannot(text, Some(Reason::NotBytes));
    };
    let bytes = &space[0..count];
    match asked {
        OfBytes::Judge => record_questions::judge(text, bytes, false),
        OfBytes::Whole => record_questions::judge(text, bytes, true),
        OfBytes::Extended => record_questions::extended(text, bytes),
        OfBytes::Rest => record_questions::rest(text, bytes),
        OfBytes::Template => template_questions::read(text, bytes),
        OfBytes::Columns => column_questions::columns(text, bytes),
    }
}

// The number may be any of 64 bits, but no more numbers are lent than a line could say.
fn most(asked: OfNumberAndBytes) -> u64 {
    match asked {
        OfNumberAndBytes::ColumnsIn => 131072,
        _ => u64::MAX,
    }
}

fn of_number_and_bytes(text: &mut Text, asked: OfNumberAndBytes, line: &[u8], at: usize) {
    match numerals::natural_at(line, at, most(asked)) {
        Ok(number) => of_bytes_and(text, asked, number.value as usize, line, number.behind),
        Err(unread) => answers::cannot(text, Some(unread.reason)),
    }
}

fn of_bytes_and(text: &mut Text, asked: OfNumberAndBytes, number: usize, line: &[u8], at: usize) {
    let mut space = [0; 131072];
    let Some(count) = hexadecimal::bytes_in(words::part(line, at, line.len()), &mut space) else {
        return answers::cannot(text, Some(Reason::NotBytes));
    };
    let bytes = &space[0..count];
    match asked {
        OfNumberAndBytes::Point => record_questions::point(text, bytes, number),
        OfNumberAndBytes::Step => record_questions::step(text, bytes, number),
        OfNumberAndBytes::LookUp => lookup_questions::look_up(text, bytes, number),
        OfNumberAndBytes::ColumnsIn => column_questions::columns_in(text, bytes, number),
    }
}
