//! How an SVG document begins: its canvas, its rules, its arrows and its title.

ghost use Rattle.std.specs.Prelude.{◌≡◌, ◌++◌, IfOk, OnOk, string_bytes};
ghost use Rattle.pictures.specs.Svg.{svg_arrows, svg_head, svg_open, svg_canvas, svg_rules, svg_title};

use crate::frame::Canvas;
use std::alloc::{AllocError, Global};

/// How the document begins.
#[tactic(auto, unfolding(crate::specs::Svg::svg_open))]
fn write_open(alloc: Global, canvas: Canvas) -> Result<String, AllocError>
    ensures { IfOk result (λ text. string_bytes text ≡ svg_open canvas) }
{
    let width = canvas.width;
    let height = canvas.height;
    let text = format!(in alloc;
        "<svg xmlns='http://www.w3.org/2000/svg' viewBox='0 0 {width} {height}' font-family='Helvetica, Arial, sans-serif' font-size='11' text-anchor='middle'>\n"
    )?;
    Ok(text)
}

/// Adds how lines, shapes and texts are drawn.
#[tactic(auto, unfolding(crate::specs::Svg::svg_rules))]
fn put_rules(text: &mut String) -> Result<(), AllocError>
    ensures { OnOk result (string_bytes text.new ≡ string_bytes text.old ++ svg_rules) }
{
    text.push_str(
        "<style>\npath { fill: none; stroke: #333333 }\n.dashed { stroke-dasharray: 6 4 }\n.grey { stroke: #999999 }\n.bold { stroke-width: 3 }\n.head { fill: #333333; stroke: none }\nrect, ellipse { stroke: #333333 }\n.ground { fill: #ffffff; stroke: none }\n.label { font-size: 9px }\n.key { text-anchor: start }\n.title { font-size: 14px; text-anchor: start }\n</style>\n",
    )
}

/// Adds the arrows.
#[tactic(auto, unfolding(crate::specs::Svg::svg_arrows))]
fn put_arrows(text: &mut String) -> Result<(), AllocError>
    ensures { OnOk result (string_bytes text.new ≡ string_bytes text.old ++ svg_arrows) }
{
    text.push_str(
        "<marker id='there' markerUnits='userSpaceOnUse' markerWidth='12' markerHeight='12' refX='46' refY='6' orient='auto'><path class='head' d='M 0 1 L 12 6 L 0 11 z'/></marker>\n<marker id='back' markerUnits='userSpaceOnUse' markerWidth='12' markerHeight='12' refX='-34' refY='6' orient='auto'><path class='head' d='M 12 1 L 0 6 L 12 11 z'/></marker>\n",
    )
}

/// White canvas.
#[tactic(auto, unfolding(crate::specs::Svg::svg_canvas))]
fn write_paper(alloc: Global, canvas: Canvas) -> Result<String, AllocError>
    ensures { IfOk result (λ text. string_bytes text ≡ svg_canvas canvas) }
{
    let width = canvas.width;
    let height = canvas.height;
    let text = format!(in alloc; "<rect class='ground' width='{width}' height='{height}'/>\n")?;
    Ok(text)
}

/// The title, for who hears the picture and for who sees it.
fn write_heading(alloc: Global, title: &str) -> Result<String, AllocError>
    ensures { IfOk result (λ text. string_bytes text ≡ svg_title title.now) }
{
    let text = format!(in alloc;
        "<title>{title}</title>\n<text class='title' x='20' y='24'>{title}</text>\n"
    )?;
    Ok(text)
}

/// What stands before the sets, without the legend.
#[tactic(auto, unfolding(crate::specs::Svg::svg_head))]
pub(crate) fn write_head(alloc: Global, canvas: Canvas, title: &str) -> Result<String, AllocError>
    ensures { IfOk result (λ text. string_bytes text ≡ svg_head canvas title.now) }
{
    let sheet = write_paper(alloc, canvas)?;
    let heading = write_heading(alloc, title)?;
    let mut text = write_open(alloc, canvas)?;
    put_rules(&mut text)?;
    put_arrows(&mut text)?;
    text.push_str(sheet.as_str())?;
    text.push_str(heading.as_str())?;
    Ok(text)
}
