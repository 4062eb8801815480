//! The style and the script of a page. They stand in it as they are: its policy allows these two alone, by their hashes
//! (`tools/report_shape --hashes` compares them).

/// What a browser shows of a page, and what it runs: constants.
#[derive(Clone, Copy)]
pub struct Look {
    pub policy: &'static str,
    pub style: &'static str,
    pub script: &'static str,
}

// Nothing is loaded, and nothing runs, but what has one of these hashes.
const POLICY: &str =
    "default-src 'none'; style-src 'sha256-ckEiPQoLRg5lBdfLjbZNgfjJ3ke0bGTj2J7VqdHghcU='; script-src 'sha256-a69KbGp6gYKlO+Xriy7rrUrLHoBJD2lt+b5VzJH3uys='";

const STYLE: &str =
    ":root{color-scheme:light dark;--bg:#fff;--fg:#1c2128;--dim:#57606a;--line:#d5dae0;--soft:#f5f7f9;--accent:#0a58ca;--bar:#5f80a8;--ok:#12653a;--okbg:#e2f3e8;--no:#a3211b;--nobg:#fbe6e4;--rw:#a35200;--rwbg:#fdf0dc}
@media (prefers-color-scheme:dark){:root{--bg:#12161c;--fg:#e4e8ed;--dim:#9aa5b1;--line:#303842;--soft:#1a2028;--accent:#7fb2ff;--bar:#56708f;--ok:#7ed6a0;--okbg:#14301f;--no:#ff9c93;--nobg:#3d1a18;--rw:#ffb866;--rwbg:#382711}}
*{box-sizing:border-box}
html{scroll-padding-top:1rem}
body{margin:0;background:var(--bg);color:var(--fg);font:1rem/1.5 system-ui,-apple-system,\"Segoe UI\",Roboto,\"DejaVu Sans\",sans-serif}
header,main,footer{max-width:70rem;margin:0 auto;padding:0 1rem}
header{padding-top:1.75rem}
h1{font-size:1.6rem;line-height:1.25;margin:0;overflow-wrap:anywhere}
h2{font-size:1.2rem;margin:2.25rem 0 .35rem}
p{margin:.35rem 0;max-width:46rem}
.dim,small{color:var(--dim)}
code,.sql,.v{unicode-bidi:isolate;font:.86em/1.5 ui-monospace,\"SFMono-Regular\",Menlo,Consolas,\"DejaVu Sans Mono\",monospace}
a{color:var(--accent)}
:focus-visible{outline:2px solid var(--accent);outline-offset:2px;border-radius:3px}
.skip{position:absolute;left:-99rem}.skip:focus{left:1rem;top:.5rem;background:var(--bg);padding:.3rem .6rem}
.facts{display:flex;flex-wrap:wrap;gap:.25rem 2rem;margin:1rem 0 0;padding:.7rem 0;border-block:1px solid var(--line)}
.facts div{display:flex;flex-direction:column-reverse}
.facts dd{margin:0;font-size:1.3rem;font-weight:600;font-variant-numeric:tabular-nums;line-height:1.25}
.facts dt{color:var(--dim);font-size:.82rem}
.bad{background:var(--nobg);color:var(--no);padding:.6rem .9rem;border-radius:6px;margin:1rem 0}
.scroll{overflow:auto;max-height:34rem;border:1px solid var(--line);border-radius:6px;margin:.6rem 0;background:var(--bg)}
svg{display:block;font:12px ui-monospace,Menlo,Consolas,\"DejaVu Sans Mono\",monospace}
svg text{fill:var(--fg)}svg .dim{fill:var(--dim)}
svg .band{fill:var(--soft)}svg .bar{fill:var(--bar)}svg .mark{fill:var(--no)}
svg .rw{fill:none;stroke:var(--rw);stroke-width:1.6}svg .tip{fill:var(--rw)}
svg a:hover .band,svg a:focus .band{fill:var(--line)}svg a{outline-offset:-2px}svg a text{text-decoration:none}
.key{display:flex;flex-wrap:wrap;gap:.2rem 1.3rem;font-size:.85rem;color:var(--dim);margin:.3rem 0 0;padding:0;list-style:none}
.key svg{display:inline-block;vertical-align:-.15em;margin-right:.4em}
.filters{display:flex;flex-wrap:wrap;gap:.5rem 1rem;align-items:end;margin:.6rem 0;padding:0}
.filters label{display:flex;flex-direction:column;font-size:.82rem;color:var(--dim)}
.filters label.row{flex-direction:row;gap:.4rem;align-items:center;min-height:2.1rem}
select,input[type=search]{font:inherit;font-size:.95rem;color:var(--fg);background:var(--bg);border:1px solid var(--line);border-radius:5px;padding:0 .5rem;height:2.15rem;min-width:8rem;max-width:100%}
.t{display:grid;grid-template-columns:9.5rem minmax(0,1fr);gap:0 1rem;border-top:1px solid var(--line);padding:.45rem 0}
.t:target{background:linear-gradient(90deg,var(--rwbg),transparent 12rem)}
.t h3{font-size:.95rem;font-weight:600;margin:0;padding:.25rem 0 0 .3rem;overflow-wrap:anywhere}
.t h3 .n{font-variant-numeric:tabular-nums;margin-right:.35em}
.t h3 small{display:block;font-weight:400;font-size:.8rem;line-height:1.3}
.rwnote{font-size:.85rem;color:var(--rw);background:var(--rwbg);border-radius:5px;padding:.1rem .55rem;margin:.15rem 0 .15rem .3rem;width:fit-content;max-width:100%}
.rwnote a{color:inherit;font-weight:600}
.h{display:grid;grid-template-columns:1.1rem minmax(0,1fr) auto;gap:0 .5rem;padding:.25rem .3rem;border-radius:5px;list-style:none}
summary.h{cursor:pointer}
summary::-webkit-details-marker{display:none}
summary:hover{background:var(--soft)}
details>summary::before{content:\"\";width:.42rem;height:.42rem;border:solid var(--dim);border-width:0 2px 2px 0;transform:rotate(-45deg);align-self:start;margin:.5rem 0 0 .15rem}
details[open]>summary::before{transform:rotate(45deg);margin-top:.4rem}
.plain>.h::before{content:\"\"}
.s .sql{overflow-wrap:anywhere}
.reply{grid-column:2/-1;font-size:.84rem;color:var(--dim);overflow-wrap:anywhere}
.plain .reply:not(.err){grid-column:3;white-space:nowrap}
.reply.err{color:var(--no)}
.chips{display:flex;flex-wrap:wrap;gap:.25rem;justify-content:flex-end;align-self:start;font-size:.78rem;line-height:1.5}
.plain .chips{display:none}
.chips span{border-radius:1rem;padding:0 .55rem;white-space:nowrap;background:var(--soft);color:var(--dim)}
.chips .g{background:var(--okbg);color:var(--ok)}.chips .r{background:var(--nobg);color:var(--no)}
.in{margin:.2rem 0 .6rem 1.45rem}
.rows{overflow-x:auto}
table{border-collapse:collapse;min-width:min(100%,24rem);font-size:.9rem}
caption{text-align:left;font-weight:600;padding:.45rem 0 .15rem}
th{font-weight:500;color:var(--dim);text-align:left;font-size:.82rem}
th,td{padding:.22rem .7rem .22rem 0;vertical-align:top;border-bottom:1px solid var(--line)}
tr:last-child>td{border-bottom:0}
td.what{white-space:nowrap;font-weight:600}td.what.g{color:var(--ok)}td.what.r{color:var(--no)}
.v{overflow-wrap:anywhere}
.arrow{color:var(--dim)}
details.w>summary{display:inline-grid;grid-template-columns:1.1rem auto;text-align:left;cursor:pointer;color:var(--accent);padding:.05rem .35rem .05rem 0;border-radius:4px;list-style:none}
details.w[open]{padding-bottom:.35rem}
.d{margin:.35rem 0 .5rem;padding-left:.8rem;border-left:3px solid var(--line)}
.d.r{border-color:var(--no)}.d.g{border-color:var(--ok)}
.d p{margin:0}
ul.p{list-style:none;margin:.1rem 0;padding:0}
ul.p ul{list-style:none;margin:0;padding-left:1.15rem;border-left:1px solid var(--line)}
ul.p li{padding:.05rem 0}
b.true{color:var(--ok)}b.false,b.null{color:var(--no)}
b.true::before{content:\"\\2713\\00a0\"}b.false::before{content:\"\\2717\\00a0\"}b.null::before{content:\"?\\00a0\"}
button{font:inherit;font-size:.9rem;color:var(--fg);background:var(--soft);border:1px solid var(--line);border-radius:5px;padding:0 .8rem;height:2.15rem;cursor:pointer}
del{color:var(--dim)}ins{text-decoration:none;font-weight:600}
.vals{color:var(--dim)}
[hidden]{display:none!important}
footer{margin-top:2.5rem;padding:1rem 1rem 2.5rem;color:var(--dim);font-size:.88rem;border-top:1px solid var(--line)}
@media (max-width:44rem){.facts{display:grid;grid-template-columns:repeat(3,1fr);gap:.5rem}thead{position:absolute;left:-99rem}.rows table,.rows tbody{display:block}.rows tr{display:flex;flex-wrap:wrap;gap:0 .9rem;border-bottom:1px solid var(--line);padding:.3rem 0}.rows td{border:0;padding:0}td.y{flex-basis:100%}td[data-l]::before{content:attr(data-l) \"\\00a0\";color:var(--dim)}.t{display:block}.t h3 small{display:inline;margin-left:.6em}.h{grid-template-columns:1.1rem minmax(0,1fr)}.chips{grid-column:2/-1;justify-content:flex-start;margin-top:.15rem}.plain .reply:not(.err){grid-column:2/-1}.plain>.h{grid-template-columns:.1rem minmax(0,1fr)}.in{margin-left:.4rem}h1{font-size:1.35rem}.scroll{max-height:26rem;margin-inline:-.5rem}.filters label:not(.row){flex:1 1 9rem}}
@media print{.scroll{max-height:none;overflow:visible}.filters,.skip{display:none}.t{break-inside:avoid}}
.plot{font-size:24px;box-sizing:content-box;padding:1px 1em 1px 7em;overflow:visible}.plot svg{font-size:24px;overflow:visible}.plot text{font-size:12px}.plot .band{width:calc(100% + 8em)}
.plot line{stroke:var(--rw);stroke-width:1.6}
";

const SCRIPT: &str = "(function(){
var f=document.querySelector('.filters');if(!f)return;f.hidden=false;
var r=f.elements.role,t=f.elements.table,d=f.elements.denied,q=f.elements.q,n=document.getElementById('count');
var S=[].slice.call(document.querySelectorAll('.s'));
function fill(e,key){var seen={};S.forEach(function(s){s.dataset[key].split(' ').forEach(function(x){if(x)seen[x]=1})});Object.keys(seen).sort().forEach(function(x){var o=document.createElement('option');o.value=x;o.textContent=x;e.appendChild(o)})}
fill(r,'role');fill(t,'tables');
function has(list,x){return x===''||(' '+list+' ').indexOf(' '+x+' ')>=0}
function go(){var c=0,w=q.value.toLowerCase();
S.forEach(function(s){var ok=has(s.dataset.role,r.value)&&has(s.dataset.tables,t.value)&&(!d.checked||s.dataset.denied==='1')&&(!w||s.textContent.toLowerCase().indexOf(w)>=0);s.hidden=!ok;if(ok)c++});
[].forEach.call(document.querySelectorAll('.t'),function(x){x.hidden=!x.querySelector('.s:not([hidden])')});
n.textContent=c+' of '+S.length+' statements'}
f.addEventListener('input',go);f.addEventListener('submit',function(e){e.preventDefault()});
f.elements.open.addEventListener('click',function(){var o=this.getAttribute('aria-pressed')!=='true';this.setAttribute('aria-pressed',o);this.textContent=o?'Close all':'Open all';S.forEach(function(s){if(!s.hidden)s.open=o})});
function jump(){var h=location.hash.slice(1);if(!/^t\\d+$/.test(h))return;var x=document.getElementById(h);if(!x)return;x.hidden=false;[].forEach.call(x.querySelectorAll('.s'),function(s){s.hidden=false;s.open=true})}
addEventListener('hashchange',jump);go();jump();
})();";

/// That of all pages.
pub(crate) fn common_look() -> Look {
    Look {
        policy: POLICY,
        style: STYLE,
        script: SCRIPT,
    }
}
