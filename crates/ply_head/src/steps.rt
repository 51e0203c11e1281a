//! The effect of a line on the header so far: each line is one step of the grammar.
//!
//! The header so far is `None` before the `format` line, so the allowed position of a line is a case here, and not a state of
//! its own.

ghost use Rattle.std.specs.Prelude.{◌≡◌, ◌++◌, ◌∷◌, [], Some, None, IfOk};
ghost use Rattle.ply_head.specs.Lines.{words_of};
ghost use Rattle.ply_head.specs.Statements.{statement_of_words};
ghost use Rattle.ply_head.specs.Headers.{Gives, step_of, with_property, has_property, has_element};
ghost use Rattle.ply_head.specs.StatementViews.{statement_view};
ghost use Rattle.ply_head.specs.StepViews.{step_view};

use crate::header::{Element, Elements, Header, Name, NoMemory, Properties, Property, Shape};
use crate::refusal::HeadRefusal;
use crate::statement::{Statement, statement_of};
use crate::words::is_word;
use std::alloc::Global;

/// Returns whether one of the properties has the name.
fn is_property(properties: &Properties, name: &[u8]) -> bool
    ensures { result ≡ has_property name.now properties.now }
{
    for property in properties.as_slice() {
        if is_word(property.name.as_slice(), name) {
            return true;
        }
    }
    false
}

/// Returns whether one of the elements has the name.
fn is_element(elements: &Elements, name: &[u8]) -> bool
    ensures { result ≡ has_element name.now elements.now }
{
    for element in elements.as_slice() {
        if is_word(element.name.as_slice(), name) {
            return true;
        }
    }
    false
}

/// Adds the property to the last element.
#[tactic(auto, using(crate::proofs::HeadLemmas::with_property_last))]
fn with_property_in(
    alloc: Global,
    number: u32,
    elements: Elements,
    name: &[u8],
    shape: Shape,
) -> Result<Elements, HeadRefusal>
    ensures { Gives (λ elements. elements) result (with_property number (record { name = name.now; shape = shape }) elements) }
{
    let mut elements = elements;
    match elements.pop() {
        None => Err(HeadRefusal::BadLine(number)),
        Some(element) => {
            if is_property(&element.properties, name) {
                return Err(HeadRefusal::Twice(number));
            }
            let element = element_with(alloc, element, name, shape)?;
            elements.push(element)?;
            Ok(elements)
        }
    }
}

/// Returns an element with one more property.
fn element_with(
    alloc: Global,
    element: Element,
    name: &[u8],
    shape: Shape,
) -> Result<Element, NoMemory>
    ensures { IfOk result (λ changed. changed ≡ record element { properties = element.properties ++ record { name = name.now; shape = shape } ∷ [] }) }
{
    let Element {
        name: element_name,
        count,
        properties,
    } = element;
    let mut properties = properties;
    let property = Property {
        name: Name::from_slice(alloc, name)?,
        shape,
    };
    properties.push(property)?;
    Ok(Element {
        name: element_name,
        count,
        properties,
    })
}

/// Returns a header with one more element, which has no properties yet.
fn header_with(alloc: Global, head: Header, name: &[u8], count: u32) -> Result<Header, NoMemory>
    ensures { IfOk result (λ changed. changed ≡ record head { elements = head.elements ++ record { name = name.now; count = count; properties = [] } ∷ [] }) }
{
    let Header { kind, elements } = head;
    let mut elements = elements;
    let element = Element {
        name: Name::from_slice(alloc, name)?,
        count,
        properties: Properties::new(alloc),
    };
    elements.push(element)?;
    Ok(Header { kind, elements })
}

/// The result of a line.
#[derive(Debug, Drop)]
pub(crate) enum Step {
    /// More lines follow; the header so far.
    Goes(Option<Header>),
    /// It was the last line; the whole header.
    Ends(Header),
}

/// Returns the effect of the line with this number on the header so far.
#[tactic(auto, unfolding(crate::specs::Headers::step_of))]
pub(crate) fn next_step(
    alloc: Global,
    number: u32,
    head: Option<Header>,
    line: &[u8],
) -> Result<Step, HeadRefusal>
    ensures { Gives step_view result (step_of number head (statement_of_words (words_of line.now))) }
{
    match statement_of(line) {
        None => Err(HeadRefusal::BadLine(number)),
        Some(Statement::Nothing) => Ok(Step::Goes(head)),
        Some(said) => match head {
            None => first_step(alloc, number, said),
            Some(head) => later_step(alloc, number, head, said),
        },
    }
}

/// Handles a line before the `format` line.
#[tactic(auto, unfolding(crate::specs::Headers::step_of))]
fn first_step(alloc: Global, number: u32, line: Statement<'_>) -> Result<Step, HeadRefusal>
    ensures { Gives step_view result (step_of number None (Some (statement_view line.entry))) }
{
    match line {
        Statement::Nothing => Ok(Step::Goes(None)),
        Statement::Format(kind) => Ok(Step::Goes(Some(Header {
            kind,
            elements: Elements::new(alloc),
        }))),
        _ => Err(HeadRefusal::BadLine(number)),
    }
}

/// Handles a line after the `format` line.
#[tactic(auto, unfolding(crate::specs::Headers::step_of))]
fn later_step(
    alloc: Global,
    number: u32,
    head: Header,
    line: Statement<'_>,
) -> Result<Step, HeadRefusal>
    ensures { Gives step_view result (step_of number (Some head) (Some (statement_view line.entry))) }
{
    match line {
        Statement::Nothing => Ok(Step::Goes(Some(head))),
        Statement::Format(_) => Err(HeadRefusal::BadLine(number)),
        Statement::Element(name, count) => {
            if is_element(&head.elements, name) {
                return Err(HeadRefusal::Twice(number));
            }
            let head = header_with(alloc, head, name, count)?;
            Ok(Step::Goes(Some(head)))
        }
        Statement::Property(name, shape) => {
            let Header { kind, elements } = head;
            let elements = with_property_in(alloc, number, elements, name, shape)?;
            Ok(Step::Goes(Some(Header { kind, elements })))
        }
        Statement::Finish => Ok(Step::Ends(head)),
    }
}
